// The sequence headers that go out: the first key's own, or a new payload in each (01, timing absent).
ghost use Rattle.std.specs.Prelude.{◌≡◌};
ghost use Rattle.obu.specs.Place.{extension_says};
ghost use Rattle.pictures.specs.Flat.{lent};
ghost use Rattle.assemble.specs.code.Stages.{new_payload, renewal_in, extension_in, payload_in};

use crate::nonempty::NonEmpty;
use obu::reader::{Obu, payload};

// A new payload, at the head of an array with room for any.
#[derive(Clone, Copy)]
pub struct Renewal {
    pub bytes: [u8; 400],
    pub len: usize,
}

impl Renewal {
    fn payload(&self) -> &[u8]
        ensures { result.now ≡ new_payload self.now }
    {
        payload(&self.bytes, 0, self.len)
    }
}

#[derive(Clone, Copy)]
pub enum Headers {
    // as they are, the first being this OBU of the first key
    Own(Obu),
    Renewed(Renewal),
}

impl Headers {
    // The payload that replaces sequence headers, if they are replaced.
    pub(crate) fn renewal(&self) -> Option<&[u8]>
        ensures { lent result ≡ renewal_in self.now }
    {
        match self {
            Headers::Own(_) => None,
            Headers::Renewed(new) => Some(new.payload()),
        }
    }

    // The extension of the sequence header OBU handed out.
    pub(crate) fn extension(&self) -> Option<u8>
        ensures { extension_says result ≡ extension_in self.now }
    {
        match self {
            Headers::Own(obu) => obu.extension,
            Headers::Renewed(_) => None,
        }
    }

    // Its payload.
    pub(crate) fn payload<'a>(&'a self, segments: NonEmpty<'a, '_>) -> &'a [u8]
        ensures { result.now ≡ payload_in segments.entry.all.picture.now segments.entry.all.numbers.now self.now }
    {
        match self {
            Headers::Own(obu) => obu.payload(segments.all.key(0)),
            Headers::Renewed(new) => new.payload(),
        }
    }
}
