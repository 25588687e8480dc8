// A type as an instruction goes by it.
ghost use Rattle.std.specs.Prelude.{◌<◌};

// How many of the 64 bits stand above the type's own, and whether its sign matters.
#[derive(Clone, Copy)]
pub struct Kind {
    pub room: u64,
    pub sign: bool,
    ghost below: { room < 64 },
}
