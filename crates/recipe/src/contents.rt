// What the slots hold while a recipe is tested: tests 7 and 8.
ghost use Rattle.std.specs.Prelude.{◌≡◌};
ghost use Rattle.recipe.specs.Contents.{content_in, holding, of_kind, work_makes, at_first};
ghost use Rattle.recipe.specs.Tests.{input_ok, inputs_ok, slots_ok};

use crate::{Inputs, Kind, Work};

// What the slots 0 to 3 hold: nothing yet, or a sheet of a kind.
#[derive(Clone, Copy)]
pub struct Contents {
    pub slots: [Option<Kind>; 4],
}

// `made` where `input` is of the kind that is wanted, and nothing otherwise.
fn of_kind(wanted: Kind, input: Option<Kind>, made: Option<Kind>) -> Option<Kind>
    ensures { result ≡ of_kind wanted input made }
{
    match (wanted, input?) {
        (Kind::Straight, Kind::Straight) => made,
        (Kind::Premultiplied, Kind::Premultiplied) => made,
        _ => None,
    }
}

impl Contents {
    // Before the first step only slot 0 holds a sheet, of the declared kind.
    pub fn at_first(kind: Kind) -> Contents
        ensures { result.slots ≡ at_first kind }
    {
        Contents {
            slots: [Some(kind), None, None, None],
        }
    }

    // A slot outside 0..=3 holds nothing.
    fn of(self, slot: u32) -> Option<Kind>
        ensures { result ≡ content_in slot self.slots }
    {
        if 3 < slot {
            return None;
        }
        self.slots[slot as usize]
    }

    // A new content in slot 1, 2 or 3; any other slot changes nothing.
    pub fn hold(&mut self, slot: u32, new: Option<Kind>)
        ensures { self.new.slots ≡ holding slot new self.old.slots }
    {
        if 0 < slot && slot <= 3 {
            self.slots[slot as usize] = new;
        }
    }

    // What a step's work makes of the slots that it reads: nothing where an input is of the wrong kind.
    pub fn made_by(self, work: Work) -> Option<Kind>
        ensures { result ≡ work_makes work self.slots }
    {
        let straight = Some(Kind::Straight);
        let premultiplied = Some(Kind::Premultiplied);
        match work {
            Work::Morphology(a, _, _, _) => {
                of_kind(Kind::Premultiplied, self.of(a), premultiplied)
            }
            Work::Arithmetic(a, b, _, _, _, _) => of_kind(
                Kind::Premultiplied,
                self.of(a),
                of_kind(Kind::Premultiplied, self.of(b), premultiplied),
            ),
            Work::ColorMatrix(a, _) => of_kind(Kind::Straight, self.of(a), straight),
            Work::ComponentTransfer(a, _, _, _, _) => {
                of_kind(Kind::Straight, self.of(a), straight)
            }
            Work::ConvolveMatrix(a, matrix) => {
                let wanted = if matrix.preserve_alpha {
                    Kind::Straight
                } else {
                    Kind::Premultiplied
                };
                of_kind(wanted, self.of(a), premultiplied)
            }
            Work::DisplacementMap(a, b, _, _, _, _, _) => {
                of_kind(Kind::Straight, self.of(b), self.of(a))
            }
            Work::Turbulence(_) => straight,
            Work::DiffuseLighting(a, _, _, _, _) => self.of(a).and(straight),
            Work::SpecularLighting(a, _, _, _, _, _) => self.of(a).and(premultiplied),
        }
    }

    // An input is not the output, and holds a sheet.
    fn input_ok(self, slot: u32, output: u32) -> bool
        ensures { result ≡ input_ok slot output self.slots }
    {
        slot != output && self.of(slot).is_some()
    }

    fn inputs_ok(self, inputs: Inputs, output: u32) -> bool
        ensures { result ≡ inputs_ok inputs output self.slots }
    {
        match inputs {
            Inputs::None => true,
            Inputs::One(a) => self.input_ok(a, output),
            Inputs::Two(a, b) => self.input_ok(a, output) && self.input_ok(b, output),
        }
    }

    // Test 7.
    pub fn slots_ok(self, inputs: Inputs, output: u32) -> bool
        ensures { result ≡ slots_ok inputs output self.slots }
    {
        if output == 0 {
            return false;
        }
        if 3 < output {
            return false;
        }
        self.inputs_ok(inputs, output)
    }
}
