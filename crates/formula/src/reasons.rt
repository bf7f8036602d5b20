// Why entry points refuse: the rows of document 01, 'When the desk says no', by name.
ghost use Rattle.std.specs.Prelude.{◌≡◌};
ghost use Rattle.formula.specs.Reasons.{code_of};

// The rows 1 to 19, in their order.
#[derive(Clone, Copy, PartialEq, Eq)]
pub enum Reason {
    LongText,
    ProblemLine,
    Sizes,
    ClauseRoom,
    Word,
    Literal,
    ClauseCount,
    TargetLine,
    PermutationLine,
    Formula,
    Permutation,
    Symmetry,
    NoSlot,
    CertificateFile,
    CertificateSizes,
    CertificatePoints,
    CertificateNumbers,
    CertificateFlips,
    OutputRoom,
}

impl Reason {
    // The row's number, for programs in other languages and for people.
    pub fn code(self) -> u32
        ensures { result ≡ code_of self }
    {
        match self {
            Reason::LongText => 1,
            Reason::ProblemLine => 2,
            Reason::Sizes => 3,
            Reason::ClauseRoom => 4,
            Reason::Word => 5,
            Reason::Literal => 6,
            Reason::ClauseCount => 7,
            Reason::TargetLine => 8,
            Reason::PermutationLine => 9,
            Reason::Formula => 10,
            Reason::Permutation => 11,
            Reason::Symmetry => 12,
            Reason::NoSlot => 13,
            Reason::CertificateFile => 14,
            Reason::CertificateSizes => 15,
            Reason::CertificatePoints => 16,
            Reason::CertificateNumbers => 17,
            Reason::CertificateFlips => 18,
            Reason::OutputRoom => 19,
        }
    }
}

// A refusal: why, and its place.
#[derive(Clone, Copy, PartialEq, Eq)]
pub struct Refusal {
    pub reason: Reason,
    pub place: usize,
}
