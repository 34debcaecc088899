//! The form of each command: what its items are, behind its word.

use trace_text::{VIEW_LIMIT, Word};

/// What an item of a command stands for.
#[derive(Clone, Copy, PartialEq, Eq)]
pub enum Item {
    New,
    View,
    Whole,
    At,
    Bytes,
    Count,
    Size,
    Lane,
}

static NEW_SIZE: [Item; 2] = [Item::New, Item::Size];

static VIEW_AT_BYTES: [Item; 3] = [Item::View, Item::At, Item::Bytes];

static VIEW_AT_COUNT: [Item; 3] = [Item::View, Item::At, Item::Count];

static VIEW_BYTES: [Item; 2] = [Item::View, Item::Bytes];

static VIEW_COUNT: [Item; 2] = [Item::View, Item::Count];

static NEW_VIEW_AT_COUNT: [Item; 4] = [Item::New, Item::View, Item::At, Item::Count];

static NEW_VIEW: [Item; 2] = [Item::New, Item::View];

static WHOLE_VIEW: [Item; 2] = [Item::Whole, Item::View];

static VIEW: [Item; 1] = [Item::View];

static VIEW_SIZE: [Item; 2] = [Item::View, Item::Size];

static VIEW_LANE: [Item; 2] = [Item::View, Item::Lane];

static NEW_LANE: [Item; 2] = [Item::New, Item::Lane];

/// The items behind a word; of a `compose`, those of one with a single view.
pub fn items_behind(word: Word) -> &'static [Item] {
    match word {
        Word::Alloc => &NEW_SIZE,
        Word::Set | Word::TrySet => &VIEW_AT_BYTES,
        Word::Get | Word::TryGet => &VIEW_AT_COUNT,
        Word::Write => &VIEW_BYTES,
        Word::Read => &VIEW_COUNT,
        Word::Slice | Word::RetainedSlice => &NEW_VIEW_AT_COUNT,
        Word::Dup | Word::Compose => &NEW_VIEW,
        Word::Retain | Word::Release | Word::Refcnt | Word::Touch | Word::Forget => &VIEW,
        Word::Send => &VIEW_LANE,
        Word::Recv => &NEW_LANE,
        Word::Add => &WHOLE_VIEW,
        Word::Capacity => &VIEW_SIZE,
    }
}

/// How many more views may stand behind these items.
pub fn more_views(word: Word) -> usize {
    match word {
        Word::Compose => VIEW_LIMIT.saturating_sub(1),
        _ => 0,
    }
}

impl Item {
    /// What the item is called where a form is written.
    pub fn name(self) -> &'static str {
        match self {
            Item::New => "new",
            Item::View => "view",
            Item::Whole => "composite",
            Item::At => "at",
            Item::Bytes => "bytes",
            Item::Count => "count",
            Item::Size => "size",
            Item::Lane => "lane",
        }
    }

    /// What the item is called in a sentence.
    pub fn called(self) -> &'static str {
        match self {
            Item::New => "new name",
            Item::View => "name of the view",
            Item::Whole => "name of the composite",
            Item::At => "offset",
            Item::Bytes => "bytes",
            Item::Count => "count",
            Item::Size => "size",
            Item::Lane => "lane",
        }
    }
}
