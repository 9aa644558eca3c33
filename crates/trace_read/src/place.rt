//! What is read and stored outside of the records of interrupts.
ghost use Rattle.std.specs.Prelude.{◌≡◌, find, map};
ghost use Rattle.std.specs.Str.{bytes_eq};
ghost use Rattle.trace_read.specs.Name.{name_of, called as called_of, singles, numbered, is_put as can_be_put};

const RAM: &str = "ram";

const PROPBASER: &str = "propbaser";

const PENDBASER: &str = "pendbaser";

const ITS_CTLR: &str = "its_ctlr";

const CBASER: &str = "cbaser";

const CWRITER: &str = "cwriter";

const BASER0: &str = "baser0";

const BASER1: &str = "baser1";

const CREADR: &str = "creadr";

const CTLR: &str = "ctlr";

const LPIS: &str = "lpis";

/// A place of a guest.
#[derive(Clone, Copy, Debug, PartialEq, Eq, Hash)]
pub enum Place {
    /// Eight bytes of the memory, little-endian, by their number from 0: `ram:I`.
    Ram(u32),
    /// GICR_PROPBASER of a vCPU: `propbaser:K`.
    Propbaser(u32),
    /// GICR_PENDBASER of a vCPU: `pendbaser:K`.
    Pendbaser(u32),
    /// GITS_CTLR: `its_ctlr`.
    ItsCtlr,
    /// GITS_CBASER: `cbaser`.
    Cbaser,
    /// GITS_CWRITER: `cwriter`.
    Cwriter,
    /// GITS_BASER0: `baser0`.
    Baser0,
    /// GITS_BASER1: `baser1`.
    Baser1,
    /// GITS_CREADR, which is read alone: `creadr`.
    Creadr,
    /// GICD_CTLR with RWP, which is read alone: `ctlr`.
    Ctlr,
    /// EnableLPIs of a vCPU's redistributor, which is read alone: `lpis:K`.
    Lpis(u32),
}

/// The places of which there is one.
const SINGLES: [Place; 7] = [
    Place::ItsCtlr,
    Place::Cbaser,
    Place::Cwriter,
    Place::Baser0,
    Place::Baser1,
    Place::Creadr,
    Place::Ctlr,
];

impl Place {
    /// What the place is called, before its number where there are several.
    fn name(self) -> &'static str
        ensures { result.now ≡ name_of self }
    {
        match self {
            Place::Ram(_) => RAM,
            Place::Propbaser(_) => PROPBASER,
            Place::Pendbaser(_) => PENDBASER,
            Place::ItsCtlr => ITS_CTLR,
            Place::Cbaser => CBASER,
            Place::Cwriter => CWRITER,
            Place::Baser0 => BASER0,
            Place::Baser1 => BASER1,
            Place::Creadr => CREADR,
            Place::Ctlr => CTLR,
            Place::Lpis(_) => LPIS,
        }
    }

    /// Whether it is called so.
    fn is_called(self, name: &str) -> bool
        ensures { result ≡ bytes_eq name.now (name_of self) }
    {
        name == self.name()
    }

    /// Whether a value can be put there.
    pub fn is_put(self) -> bool
        ensures { result ≡ can_be_put self }
    {
        !matches!(self, Place::Creadr | Place::Ctlr | Place::Lpis(_))
    }

    /// The place with a name and no number.
    pub(crate) fn single(name: &str) -> Option<Place>
        ensures { result ≡ called_of name.now singles }
    {
        called(name, &SINGLES)
    }

    /// The place with a name and a number.
    pub(crate) fn numbered(name: &str, number: u32) -> Option<Place>
        ensures { result ≡ called_of name.now (numbered number) }
    {
        let places = [
            Place::Ram(number),
            Place::Propbaser(number),
            Place::Pendbaser(number),
            Place::Lpis(number),
        ];
        called(name, &places)
    }
}

/// The one of these places that is called so.
fn called(name: &str, places: &[Place]) -> Option<Place>
    ensures { result ≡ called_of name.now places.now }
{
    places.iter().copied().find(|place| place.is_called(name))
}
