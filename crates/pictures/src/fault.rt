// Why assembly refuses, and which segment it names.
ghost use Rattle.std.specs.Prelude.{◌≡◌, Some, None};
ghost use Rattle.bitio.specs.Refusal.{says};
ghost use Rattle.pictures.specs.Assemble.{in_segment};
ghost use Rattle.pictures.specs.Says.{outcome_of};
ghost use Rattle.pictures.specs.declared.fault.Fault.{Fault};

use bitio::refusal::Refusal;

#[derive(Clone, Copy)]
pub struct Fault {
    pub refusal: Refusal,
    // from 0; none where the whole list is to blame
    pub segment: Option<usize>,
}

impl Fault {
    pub fn overall(refusal: Refusal) -> Fault
        ensures { result ≡ record { refusal = refusal; segment = None } }
    {
        Fault {
            refusal,
            segment: None,
        }
    }

    pub fn in_segment(refusal: Refusal, i: usize) -> Fault
        ensures { result ≡ record { refusal = refusal; segment = Some i } }
    {
        Fault {
            refusal,
            segment: Some(i),
        }
    }
}

impl From<Refusal> for Fault {
    ghost from_gives = { λ refusal fault. fault ≡ record { refusal = refusal; segment = None } };

    fn from(refusal: Refusal) -> Fault {
        Fault::overall(refusal)
    }
}

// An answer on segment i.
#[tactic(auto, unfolding(crate::specs::Assemble::in_segment))]
pub fn in_segment<T>(answer: Result<T, Refusal>, i: usize) -> Result<T, Fault>
    ensures { outcome_of result ≡ in_segment i (says answer) }
{
    answer.map_err(|refusal| Fault::in_segment(refusal, i))
}
