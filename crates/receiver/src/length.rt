// The length that a stream announces, as far as its bytes tell.
ghost use Rattle.std.specs.Prelude.{◌≡◌};
ghost use Rattle.stream.specs.Layout.{stream_length};

// The fewest bytes that a stream with such a beginning has. A version that isn't there yet is of no kind.
#[tactic(auto, unfolding(stream::specs::Layout::stream_length))]
pub fn announced(stream: &[u8]) -> usize
    ensures { result ≡ stream_length stream.now }
{
    let version = stream.get(5).copied().unwrap_or(0);
    let kind = stream::kind_of(version);
    stream::stream_length(kind, stream::frame_count(kind, stream))
}
