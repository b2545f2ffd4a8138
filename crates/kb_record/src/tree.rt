//! The trees of words and records. Names, strings and words borrow from the text.

use kb_ragged::Ragged;

/// A factor of a word: a name or a group in brackets, each with its power where it has one.
#[derive(Debug, Drop)]
pub enum Factor<'a> {
    /// A generator's name, or `IdWord`.
    Name(&'a str, Option<i64>),
    /// A word in round brackets.
    Group(Vec<Factor<'a>>, Option<i64>),
}

/// A word as it is written: a text that begins with it. So it takes no memory, however long it is.
#[derive(Clone, Copy, Debug)]
pub struct Expr<'a> {
    pub(crate) text: &'a [u8],
}

/// A place of a list as it is written: a text that begins with its value, or with the comma or the bracket behind it
/// where the place is empty.
#[derive(Clone, Copy, Debug)]
pub struct PlaceText<'a> {
    pub(crate) text: &'a [u8],
}

/// The places of a list as they are written: a text, and where in it each of them begins. So a place takes four bytes,
/// whatever stands there.
#[derive(Debug, Drop)]
pub struct WrittenPlaces<'a> {
    pub(crate) text: &'a [u8],
    pub(crate) begins: Vec<u32>,
}

/// A field of a record as it is written: a text that begins with it.
#[derive(Clone, Copy, Debug)]
pub struct FieldText<'a> {
    pub(crate) text: &'a [u8],
}

/// A field of a record. One of at most 256 bytes of text is kept as it is written, so that it takes no memory beside
/// its place among the fields, however many there are; of a longer one the value is kept.
#[derive(Debug, Drop)]
pub enum Field<'a, V> {
    /// As it is written.
    Written(FieldText<'a>),
    /// Its name and its value.
    Read(&'a str, Box<V>),
}

/// A field of a record whose values are those of texts.
pub type RecordField<'a> = Field<'a, Value<'a>>;

/// What a field or a place of a list may hold.
#[derive(Debug, Drop)]
pub enum Value<'a> {
    /// `-3`
    Number(i64),
    /// `"shortlex"`
    String(&'a str),
    /// `rec( .. )`, its fields in the order of the text
    Record(Vec<Field<'a, Value<'a>>>),
    /// `[ .. ]`, its places in order, of which some may be empty. It may be any list, but one that is read is kept as
    /// one of the next three where it can be. Two kinds of lists aren't tried: rows of numbers of which the first has
    /// none, and lists within 62 brackets or more.
    List(WrittenPlaces<'a>),
    /// `[1,2]`, a list of numbers
    Numbers(Vec<i64>),
    /// `[[1,2],[3]]`, a list of lists of numbers
    Rows(Ragged<i64>),
    /// `[[[1,2],[3,4]],[]]`, a list of lists of two numbers each
    Entries(Ragged<(i64, i64)>),
    /// `[m..n]`
    Range(i64, i64),
    /// a word; a bare name is a word of one factor
    Word(Expr<'a>),
}

/// The tree of a text: its name and its fields, in the order of the text.
#[derive(Debug, Drop)]
pub struct Rec<'a> {
    /// The text's own name.
    pub name: &'a str,
    /// Its fields.
    pub fields: Vec<RecordField<'a>>,
}
