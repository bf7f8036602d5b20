// The formula by value (01: sheet), its limits, replies, and the refusals 10, 11, 12 and 19 that entry points share.
#![tactic(auto)]

ghost use Rattle.std.specs.Prelude.{◌≡◌};
ghost use Rattle.formula.specs.Problem.{empty_formula};
ghost use Rattle.formula.specs.Laws.Contracts.{formula_lent};

use crate::view::FormulaView;
use points::Point;

pub mod reasons;
pub mod refusals;
pub mod room;
pub mod view;

// F3: a CNF formula with its target point (01: wish) and its permutations (01: exchanges), which stand in `images`
// without gaps, `variables` bytes each. Its clauses lie in two slices beside it.
#[derive(Clone, Copy)]
pub struct Formula {
    pub variables: u32,
    pub clauses: u32,
    pub target: Point,
    pub permutations: u32,
    pub images: [u8; Formula::MAX_IMAGES],
}

// The numbers of a formula: all of it but the images.
#[derive(Clone, Copy)]
pub struct Numbers {
    pub variables: u32,
    pub clauses: u32,
    pub target: Point,
    pub permutations: u32,
}

impl Formula {
    // F5: "The limits 64, 4,096, 16 and 65,536 belong to the sheet's own kind".
    pub const MAX_VARIABLES: u32 = 64;

    pub const MAX_CLAUSES: u32 = 4096;

    pub const MAX_PERMUTATIONS: u32 = 16;

    pub const MAX_SLOTS: u32 = 65536;

    // Bytes for the images of the most permutations of the most variables.
    pub const MAX_IMAGES: usize = Formula::MAX_PERMUTATIONS as usize
        * Formula::MAX_VARIABLES as usize;

    // The formula where it lies; no copy of its images is made.
    pub fn view(&self) -> FormulaView<'_>
        ensures { formula_lent result ≡ self.now }
    {
        FormulaView {
            numbers: Numbers {
                variables: self.variables,
                clauses: self.clauses,
                target: self.target,
                permutations: self.permutations,
            },
            images: &self.images,
        }
    }

    // F5, N2: the formula that is 0 throughout, which a refusal carries.
    pub fn empty() -> Formula
        ensures { result ≡ empty_formula }
    {
        Formula {
            variables: 0,
            clauses: 0,
            target: points::EMPTY,
            permutations: 0,
            images: [0u8; Formula::MAX_IMAGES],
        }
    }
}
