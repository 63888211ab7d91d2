// The flags that a plan's list waits for, and document 01's number of each, which C gets.
ghost use Rattle.std.specs.Prelude.{◌≡◌};
ghost use Rattle.order.specs.Waits.{wait_number};

#[derive(Clone, Copy, PartialEq, Eq)]
pub enum Awaited {
    Hsi = 1,
    Hse = 2,
    Pll = 3,
    Oden = 4,
    Odswen = 5,
    Lse = 6,
    Lsi = 7,
    Sw = 8,
}

impl From<Awaited> for u32 {
    ghost from_gives = { λ w n. n ≡ wait_number w };

    fn from(wait: Awaited) -> u32 {
        wait as u32
    }
}
