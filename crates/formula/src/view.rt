// A formula where it lies. Functions hand it on; no copy of its images is made.
ghost use Rattle.std.specs.Prelude.{◌≡◌, length};
ghost use Rattle.formula.specs.Limits.{max_images};

use crate::Numbers;
use permutation_images::Permutations;

// A formula whose images stay where they lie, as many as one by value has.
#[derive(Clone, Copy)]
pub struct FormulaView<'a> {
    pub numbers: Numbers,
    pub images: &'a [u8],
    ghost whole: { length images.now ≡ max_images },
}

impl<'a> FormulaView<'a> {
    // Its permutations, where they lie.
    pub fn permutations(self) -> Permutations<'a>
        ensures { result ≡ record {
          variables = self.entry.numbers.variables;
          count = self.entry.numbers.permutations;
          images = self.entry.images;
        } }
    {
        Permutations {
            variables: self.numbers.variables,
            count: self.numbers.permutations,
            images: self.images,
        }
    }
}
