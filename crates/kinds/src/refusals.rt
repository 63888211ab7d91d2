// Document 01, "Numbers for every refusal".
ghost use Rattle.std.specs.Prelude.{◌≡◌};
ghost use Rattle.kinds.specs.Refusals.{number_of};

// Why a request is refused, in the order of the numbers, from 1 on.
#[derive(Clone, Copy, PartialEq, Eq)]
pub enum Refusal {
    Hse,
    Hclk,
    Sysclk,
    Pclk1,
    Pclk2,
    Settings,
    NoPair,
    DerivedSysclk,
    PllsaiVco,
    PllsaiP,
    Plli2sVco,
    Unanswered,
    PollLimit,
    Malformed,
}

impl From<Refusal> for u32 {
    ghost from_gives = { λ refusal number. number ≡ number_of refusal };

    fn from(refusal: Refusal) -> u32 {
        match refusal {
            Refusal::Hse => 1,
            Refusal::Hclk => 2,
            Refusal::Sysclk => 3,
            Refusal::Pclk1 => 4,
            Refusal::Pclk2 => 5,
            Refusal::Settings => 6,
            Refusal::NoPair => 7,
            Refusal::DerivedSysclk => 8,
            Refusal::PllsaiVco => 9,
            Refusal::PllsaiP => 10,
            Refusal::Plli2sVco => 11,
            Refusal::Unanswered => 12,
            Refusal::PollLimit => 13,
            Refusal::Malformed => 14,
        }
    }
}
