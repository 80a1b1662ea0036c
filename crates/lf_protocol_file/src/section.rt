//! What a protocol file has.

ghost use Rattle.std.specs.Prelude.{◌≡◌};
ghost use Rattle.lf_protocol_file.specs.Sections.{section_name, naming_name, listing_name, part_name, naming_is_needed, listing_is_needed, fewest_entries};
ghost use Rattle.lf_protocol_file.specs.Sections.{most_entries, fewest_items, most_items, is_section, is_part};

/// A section of a protocol file, which is one of its keys.
#[derive(Clone, Copy, Debug, PartialEq, Eq)]
pub enum Section {
    /// What a scenario calls the protocol.
    Name,
    /// A section that is a table.
    Naming(Naming),
    /// A section that is a list.
    Listing(Listing),
}

/// A section that is a table: its entries have names.
#[derive(Clone, Copy, Debug, PartialEq, Eq)]
pub enum Naming {
    /// The constants.
    Given,
    /// The variables of a node's state.
    State,
    /// The named expressions.
    Lets,
    /// The named guards.
    Facts,
    /// What the protocol promises.
    Outcomes,
}

/// A section that is a list: its items have numbers.
#[derive(Clone, Copy, Debug, PartialEq, Eq)]
pub enum Listing {
    /// The forms of notes.
    Notes,
    /// The rules.
    Rules,
    /// The variables that a trace shows.
    Trace,
}

/// A part of a rule, which is one of its keys. They are read in this order.
#[derive(Clone, Copy, Debug, PartialEq, Eq)]
pub enum Part {
    /// Whose rule it is.
    Who,
    /// What it is on.
    On,
    /// The guard.
    When,
    /// The variables and cells that get values.
    Set,
    /// The notes that are sent.
    Send,
}

impl Section {
    /// The section as it is written.
    pub fn name(self) -> &'static str
        ensures { result.now ≡ section_name self }
    {
        match self {
            Section::Name => "name",
            Section::Naming(naming) => naming.name(),
            Section::Listing(listing) => listing.name(),
        }
    }
}

impl Naming {
    /// The section as it is written.
    pub fn name(self) -> &'static str
        ensures { result.now ≡ naming_name self }
    {
        match self {
            Naming::Given => "given",
            Naming::State => "state",
            Naming::Lets => "lets",
            Naming::Facts => "facts",
            Naming::Outcomes => "outcomes",
        }
    }

    /// Whether the section has to be there.
    pub fn is_needed(self) -> bool
        ensures { result ≡ naming_is_needed self }
    {
        matches!(self, Naming::State)
    }

    /// The fewest entries that it may have, where it is there.
    pub fn fewest(self) -> usize
        ensures { result ≡ fewest_entries self }
    {
        match self {
            Naming::State => 1,
            _ => 0,
        }
    }

    /// The most entries that it may have.
    pub fn most(self) -> usize
        ensures { result ≡ most_entries self }
    {
        match self {
            Naming::State | Naming::Facts => 32,
            _ => 16,
        }
    }
}

impl Listing {
    /// The section as it is written.
    pub fn name(self) -> &'static str
        ensures { result.now ≡ listing_name self }
    {
        match self {
            Listing::Notes => "notes",
            Listing::Rules => "rules",
            Listing::Trace => "trace",
        }
    }

    /// Whether the section has to be there.
    pub fn is_needed(self) -> bool
        ensures { result ≡ listing_is_needed self }
    {
        !matches!(self, Listing::Trace)
    }

    /// The fewest items that it may have, where it is there.
    pub fn fewest(self) -> usize
        ensures { result ≡ fewest_items self }
    {
        match self {
            Listing::Trace => 1,
            _ => 0,
        }
    }

    /// The most items that it may have.
    pub fn most(self) -> usize
        ensures { result ≡ most_items self }
    {
        match self {
            Listing::Rules => 128,
            Listing::Trace => 32,
            _ => 16,
        }
    }
}

impl Part {
    /// The part as it is written.
    pub fn name(self) -> &'static str
        ensures { result.now ≡ part_name self }
    {
        match self {
            Part::Who => "who",
            Part::On => "on",
            Part::When => "when",
            Part::Set => "set",
            Part::Send => "send",
        }
    }
}

/// Whether a text is one of a file's sections.
#[tactic(auto, unfolding(crate::specs::Sections::is_section))]
pub fn is_section(key: &str) -> bool
    ensures { result ≡ is_section key.now }
{
    key == "name"
        || key == "given"
        || key == "state"
        || key == "notes"
        || key == "lets"
        || key == "facts"
        || key == "rules"
        || key == "outcomes"
        || key == "trace"
}

/// Whether a text is one of a rule's parts.
#[tactic(auto, unfolding(crate::specs::Sections::is_part))]
pub fn is_part(key: &str) -> bool
    ensures { result ≡ is_part key.now }
{
    key == "who" || key == "on" || key == "when" || key == "set" || key == "send"
}
