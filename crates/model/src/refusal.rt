// What can be refused, by whom it is caused, and where.
ghost use Rattle.std.specs.Prelude.{◌≡◌, ◌+◌, ◌*◌};
ghost use Rattle.model.specs.Refusals.{number_of, layer_of, code_of, refuse};

/// Who can cause a refusal.
#[derive(Clone, Copy, PartialEq, Eq, Debug)]
pub enum Layer {
    /// The writer of a file.
    File,
    /// Who sets a term of a layer.
    Term,
    /// Who reports to a campaign, or the campaign itself when nothing meets it.
    Campaign,
    /// Who hands over memory.
    Memory,
    /// The maker of a network.
    Flow,
    /// Who proposes a plan to be checked.
    Check,
}

/// What is wrong. Each case has one number, by which it is known outside the library, and one layer.
#[derive(Clone, Copy, PartialEq, Eq, Debug)]
pub enum Fault {
    /// The kind letter of a file is unknown.
    Kind = 1,
    /// The horizon of a file is not 1 to 128.
    Horizon = 2,
    /// The file ends inside a field; the place is its length.
    Short = 3,
    /// A count of a file is out of range.
    Count = 4,
    /// Another field of a file is out of range.
    Range = 5,
    /// Bytes follow the end of a file; the place is the first.
    Trailing = 6,
    /// An activity, a slot or a value of a layer's term is out of range.
    Term = 7,
    /// There is no such activity.
    NoActivity = 8,
    /// The slot lies at or past the horizon; for a clock, past it.
    PastHorizon = 9,
    /// The activity has begun already.
    AlreadyBegun = 10,
    /// The slot lies before the clock.
    BeforeClock = 11,
    /// The slot is closed in the project below the campaign.
    ClosedBelow = 12,
    /// Too few start bytes; the place is how many are needed, as with the next three.
    StartBytes = 13,
    /// Too few flow words.
    FlowWords = 14,
    /// Too few node words.
    NodeWords = 15,
    /// Too few chain entries.
    ChainEntries = 16,
    /// The file is longer than a program's memory for it.
    FileTooLong = 17,
    /// No start list meets the project; the place is the length of the chain that shows it.
    Impossible = 18,
    /// Unbounded arcs alone lead from the source of a network to its sink.
    Unbounded = 19,
    /// A proposed start lies at or past the horizon, or in a closed slot.
    StartClosed = 20,
    /// The proposed starts break a lag.
    LagBroken = 21,
    /// A flow word lies above its arc's capacity, or above the limit.
    WordAbove = 22,
    /// Inflow and outflow differ at a node.
    Unbalanced = 23,
    /// The value of the flow is not the cost less the floors.
    ValueDiffers = 24,
}

impl Fault {
    /// The number that stands for this fault outside the library.
    pub fn number(self) -> u16
        ensures { result ≡ number_of self }
    {
        self as u16
    }

    /// Who can cause this fault.
    pub fn layer(self) -> Layer
        ensures { result ≡ layer_of self }
    {
        match self {
            Fault::Kind
            | Fault::Horizon
            | Fault::Short
            | Fault::Count
            | Fault::Range
            | Fault::Trailing => Layer::File,
            Fault::Term => Layer::Term,
            Fault::NoActivity
            | Fault::PastHorizon
            | Fault::AlreadyBegun
            | Fault::BeforeClock
            | Fault::ClosedBelow
            | Fault::Impossible => Layer::Campaign,
            Fault::StartBytes
            | Fault::FlowWords
            | Fault::NodeWords
            | Fault::ChainEntries
            | Fault::FileTooLong => Layer::Memory,
            Fault::Unbounded => Layer::Flow,
            Fault::StartClosed
            | Fault::LagBroken
            | Fault::WordAbove
            | Fault::Unbalanced
            | Fault::ValueDiffers => Layer::Check,
        }
    }

    /// The refusal for this fault at a place.
    pub fn at(self, place: u16) -> Refusal
        ensures { result ≡ refuse self place }
    {
        Refusal { fault: self, place }
    }
}

/// A fault and where it is: an offset, an activity, a slot, an arc, a node or a length, as the fault says.
#[derive(Clone, Copy, PartialEq, Eq, Debug)]
pub struct Refusal {
    pub fault: Fault,
    pub place: u16,
}

impl Refusal {
    /// Number × 65,536 + place: how a refusal passes to a caller that knows numbers only.
    pub fn code(self) -> u32
        ensures { result ≡ code_of self }
    {
        self.fault.number() as u32 * 65_536 + self.place as u32
    }
}
