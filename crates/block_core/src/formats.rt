//! The names and tags of the formats.

ghost use Rattle.std.specs.Prelude.{◌≡◌, ◌≢◌, MatchOption};
ghost use Rattle.block_core.specs.Formats.{tag_of, name_of};

/// How the blocks of a column are encoded, in the order of the tags in column files.
#[derive(Clone, Copy, Debug, PartialEq, Eq, PartialOrd, Ord, Hash)]
pub enum Format {
    /// 1,024 words.
    Plain,
    /// Packed at one width for the whole column.
    Static,
    /// Packed at the block's own width, which stands before it.
    Dynamic,
    /// Values and how often each repeats.
    Runs,
    /// The differences of neighbours, packed.
    Delta1Dynamic,
    /// The differences to the value 16 places before, packed.
    Delta16Dynamic,
    /// The differences to the block's least value, packed.
    ReferenceDynamic,
    /// The runs of the differences of neighbours.
    Delta1Runs,
}

impl Format {
    /// The formats, each at the place that is its tag.
    pub const ALL: [Format; 8] = [
        Format::Plain,
        Format::Static,
        Format::Dynamic,
        Format::Runs,
        Format::Delta1Dynamic,
        Format::Delta16Dynamic,
        Format::ReferenceDynamic,
        Format::Delta1Runs,
    ];

    /// The tag in a column file's head.
    pub fn tag(self) -> u8
        ensures { result ≡ tag_of self }
    {
        match self {
            Format::Plain => 0,
            Format::Static => 1,
            Format::Dynamic => 2,
            Format::Runs => 3,
            Format::Delta1Dynamic => 4,
            Format::Delta16Dynamic => 5,
            Format::ReferenceDynamic => 6,
            Format::Delta1Runs => 7,
        }
    }

    /// The format that has the tag, if one has it.
    pub fn from_tag(tag: u8) -> Option<Format>
        ensures { MatchOption result ((format : Format) → tag_of format ≢ tag) (λ format. tag_of format ≡ tag) }
    {
        Format::ALL.get(tag as usize).copied()
    }

    /// The format that has the name, if one has it.
    pub fn from_name(name: &str) -> Option<Format>
        ensures { MatchOption result ((format : Format) → name_of format ≢ name.now) (λ format. name_of format ≡ name.now) }
    {
        match name {
            "plain" => Some(Format::Plain),
            "static" => Some(Format::Static),
            "dynamic" => Some(Format::Dynamic),
            "runs" => Some(Format::Runs),
            "delta1+dynamic" => Some(Format::Delta1Dynamic),
            "delta16+dynamic" => Some(Format::Delta16Dynamic),
            "reference+dynamic" => Some(Format::ReferenceDynamic),
            "delta1+runs" => Some(Format::Delta1Runs),
            _ => None,
        }
    }

    /// The name in schemas, strategies and answers.
    pub fn name(self) -> &'static str
        ensures { result.now ≡ name_of self }
    {
        match self {
            Format::Plain => "plain",
            Format::Static => "static",
            Format::Dynamic => "dynamic",
            Format::Runs => "runs",
            Format::Delta1Dynamic => "delta1+dynamic",
            Format::Delta16Dynamic => "delta16+dynamic",
            Format::ReferenceDynamic => "reference+dynamic",
            Format::Delta1Runs => "delta1+runs",
        }
    }
}

/// A format, or the one that makes the column's file shortest.
#[derive(Clone, Copy, Debug, PartialEq, Eq, Hash)]
pub enum FormatChoice {
    Fixed(Format),
    Auto,
}
