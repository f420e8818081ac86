// The ids of a list, as they are printed.
ghost use Rattle.std.specs.Prelude.{◌≡◌, ℕ, [], length, IfOk, string_bytes};
ghost use Rattle.ids.specs.Value.{ids_of};
ghost use Rattle.printing.specs.Greatest.{greatest as greatest_of};
ghost use Rattle.printing.specs.Label.{Spelled, label_at};

use crate::columns::max_of;
use crate::escapes::Escaped;
use ids::Ids;
use std::alloc::{AllocError, Global};
use tables::Record;

// A text to print, and how many characters it has.
#[derive(Drop)]
pub struct Label {
    pub text: String,
    pub width: usize,
}

// The labels of encodings by their numbers, and that of every greater number.
#[derive(Drop)]
pub struct Labels {
    pub known: Vec<Label>,
    pub unknown: Label,
}

impl Label {
    pub fn new(text: String) -> Label
        ensures text { result.text ≡ text }
        ensures width { Spelled (string_bytes text) result.width }
    {
        let width = text.chars().count();
        Label { text, width }
    }
}

impl Labels {
    // Without a list of ids every label is empty.
    pub fn empty(heap: Global) -> Labels
        ensures { (encoding : ℕ) → string_bytes (label_at result encoding).text ≡ [] }
    {
        Labels {
            known: Vec::new(heap),
            unknown: Label::new(String::new(heap)),
        }
    }

    // The labels of a list: the ids at their places.
    pub fn new(heap: Global, list: &Ids) -> Result<Labels, AllocError>
        ensures { IfOk result (λ l. length l.known.items ≡ length (ids_of list.now)) }
    {
        let unknown = Label::new(String::from_str(heap, "not in the list")?);
        let mut known = Vec::new(heap);
        for bytes in list.iter() {
            let text = Escaped { bytes }.to_string(heap)?;
            known.push(Label::new(text))?;
        }
        Ok(Labels { known, unknown })
    }

    // The label of an encoding.
    pub fn get(&self, encoding: u16) -> &Label
        ensures { result.now ≡ label_at self.now encoding }
    {
        match self.known.get(encoding as usize) {
            Some(label) => label,
            None => &self.unknown,
        }
    }

    // The greatest width of a label among the tables in the records.
    pub fn widest(&self, records: &[Option<Record<u32>>]) -> usize
        ensures { result ≡ greatest_of (λ t. (label_at self.now t.encoding).width) records.now }
    {
        // Without a list of ids there is nothing to look for in the records.
        if self.known.is_empty() && self.unknown.width == 0 {
            return 0;
        }
        max_of(records, 0, |table| self.get(table.encoding).width)
    }
}
