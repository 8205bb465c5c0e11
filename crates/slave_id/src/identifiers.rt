// What a response carries.
ghost use Rattle.std.specs.Prelude.{◌<◌, ◌^◌};

// The identifiers of a slave, of 24 bits each.
#[derive(Clone, Copy)]
pub struct Identifiers {
    pub product: u32,
    pub device: u32,
    ghost narrow: { (product < 2 ^ 24) × (device < 2 ^ 24) },
}
