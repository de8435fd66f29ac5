ghost use Rattle.std.specs.Prelude.{◌≡◌, Some};
ghost use Rattle.std.specs.Result.{result_map_both};
ghost use Rattle.sheets.specs.Faults.{fault_at, layer_word, fault_text};

use base::Refusal;
use std::fmt;

// Who ended the run: the reader of the sheet, or the floor that the sheet asks for.
#[derive(Clone, Copy, PartialEq, Eq, Debug)]
pub enum Layer {
    Sheet,
    Floor,
}

impl fmt::Display for Layer {
    ghost output = { λ l. Some (layer_word l) };

    fn fmt<W: fmt::Write>(&self, f: &mut fmt::Formatter<W>) -> fmt::Result {
        f.write_str(match self {
            Layer::Sheet => "sheet",
            Layer::Floor => "floor",
        })
    }
}

// Why a run ends early, and the byte place of the tag of the field that ends it.
#[derive(Clone, Copy, PartialEq, Eq, Debug)]
pub struct Fault {
    pub layer: Layer,
    pub refusal: Refusal,
    pub place: usize,
}

impl Fault {
    // The same answer, with a refusal turned into a fault at its layer and place.
    pub fn located<T>(layer: Layer, place: usize, answer: Result<T, Refusal>) -> Result<T, Fault>
        ensures { result ≡ result_map_both (λ x. x) (fault_at layer place) answer }
    {
        answer.map_err(|refusal| Fault {
            layer,
            refusal,
            place,
        })
    }
}

// The layer, the number of the refusal and the place.
impl fmt::Display for Fault {
    ghost output = { λ x. Some (fault_text x) };

    fn fmt<W: fmt::Write>(&self, f: &mut fmt::Formatter<W>) -> fmt::Result {
        let layer = self.layer;
        let number = self.refusal.number();
        let place = self.place;
        write!(f, "{layer} {number} {place}")
    }
}
