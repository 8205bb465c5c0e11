// The search for the next whole stream.
ghost use Rattle.std.specs.Prelude.{◌≡◌};
ghost use Rattle.recording.specs.Recording.{deliveries_after};
ghost use Rattle.recording.specs.Stage.{searched};

use stream::WholeStream;

// A whole stream, and where it stands.
#[derive(Clone, Copy)]
pub struct Span {
    pub position: usize,
    pub stream: WholeStream,
}

// The first position from `start` on at which the stretch to the input's end begins with a whole stream.
pub fn first_whole(input: &[u8], start: usize) -> Option<Span>
    ensures { result ≡ searched input.now (deliveries_after input.now start) }
{
    let mut at = start;
    loop {
        at = stream::next_sync(input, at);
        if at >= input.len() {
            break None;
        }
        match stream::first_fault(&input[at..]) {
            Ok(stream) => {
                break Some(Span {
                    position: at,
                    stream,
                });
            }
            Err(stop) => at += stop.offset, // to the fault: no byte before it is a sync byte, but it may be one itself
        }
    }
}
