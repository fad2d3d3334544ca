//! A text that grows word by word.
ghost use Rattle.std.specs.List.{flat_map};
ghost use Rattle.std.specs.Prelude.{◌≡◌, ◌∷◌, [], ◌++◌, codes, decimal, OnOk};
ghost use Rattle.st_report.specs.Text.{hex_word, places_word, row_word, spaced, value_word};

use itoa::Buffer;
use st_key::{Key, Value};
use std::alloc::{AllocError, Global};

/// The text so far.
#[derive(Drop)]
pub struct Writer {
    pub alloc: Global,
    pub bytes: Vec<u8>,
}

impl Writer {
    /// Bytes as they are.
    pub fn text(&mut self, text: &str) -> Result<(), AllocError>
        ensures { OnOk result (self.new.bytes.items ≡ self.old.bytes.items ++ text.now) }
    {
        self.bytes.extend_from_slice(text.as_bytes())
    }

    /// The end of a line.
    pub fn end_line(&mut self) -> Result<(), AllocError>
        ensures { OnOk result (self.new.bytes.items ≡ self.old.bytes.items ++ codes "\n") }
    {
        self.text("\n")
    }

    fn digits(&mut self, n: u64) -> Result<(), AllocError>
        ensures { OnOk result (self.new.bytes.items ≡ self.old.bytes.items ++ decimal n) }
    {
        let mut buffer = Buffer::new();
        let digits = buffer.format(n);
        self.text(digits)
    }

    fn hex(&mut self, bytes: &[u8]) -> Result<(), AllocError>
        ensures { OnOk result (self.new.bytes.items ≡ self.old.bytes.items ++ hex_word bytes.now) }
    {
        if bytes.is_empty() {
            return self.text("-");
        }
        let digits = hex::encode(self.alloc, bytes)?;
        self.text(&digits)
    }

    /// A space and this word.
    pub fn word(&mut self, word: &str) -> Result<(), AllocError>
        ensures { OnOk result (self.new.bytes.items ≡ self.old.bytes.items ++ spaced word.now) }
    {
        self.text(" ")?;
        self.text(word)
    }

    /// A space and this number.
    pub fn number(&mut self, n: u64) -> Result<(), AllocError>
        ensures { OnOk result (self.new.bytes.items ≡ self.old.bytes.items ++ spaced (decimal n)) }
    {
        self.text(" ")?;
        self.digits(n)
    }

    /// A space and these bytes in hex.
    pub fn bytes(&mut self, bytes: &[u8]) -> Result<(), AllocError>
        ensures { OnOk result (self.new.bytes.items ≡ self.old.bytes.items ++ spaced (hex_word bytes.now)) }
    {
        self.text(" ")?;
        self.hex(bytes)
    }

    /// A label and a number.
    pub fn labelled(&mut self, label: &str, n: u64) -> Result<(), AllocError>
        ensures { OnOk result (self.new.bytes.items
            ≡ self.old.bytes.items ++ (label.now ++ spaced (decimal n))) }
    {
        self.text(label)?;
        self.number(n)
    }

    /// A label and bytes in hex.
    pub fn labelled_bytes(&mut self, label: &str, bytes: &[u8]) -> Result<(), AllocError>
        ensures { OnOk result (self.new.bytes.items
            ≡ self.old.bytes.items ++ (label.now ++ spaced (hex_word bytes.now))) }
    {
        self.text(label)?;
        self.bytes(bytes)
    }

    /// A space and this key.
    pub fn key(&mut self, key: &Key) -> Result<(), AllocError>
        ensures { OnOk result (self.new.bytes.items ≡ self.old.bytes.items ++ spaced (hex_word key.now)) }
    {
        self.bytes(key.bytes())
    }

    /// A space and this value, or `none`.
    pub fn value(&mut self, value: &Option<Value>) -> Result<(), AllocError>
        ensures { OnOk result (self.new.bytes.items ≡ self.old.bytes.items ++ spaced (value_word value.now)) }
    {
        match value {
            Some(value) => self.bytes(value.bytes()),
            None => self.word("none"),
        }
    }

    /// A space and this pair.
    pub fn row(&mut self, row: &(Key, Value)) -> Result<(), AllocError>
        ensures { OnOk result (self.new.bytes.items ≡ self.old.bytes.items ++ spaced (row_word row.now)) }
    {
        self.bytes(row.0.bytes())?;
        self.text("=")?;
        self.hex(row.1.bytes())
    }

    /// A space and these places.
    pub fn places(&mut self, places: &[u64]) -> Result<(), AllocError>
        ensures { OnOk result (self.new.bytes.items ≡ self.old.bytes.items ++ spaced (places_word places.now)) }
    {
        match places {
            [] => self.word("-"),
            [first, later @ ..] => {
                self.number(*first)?;
                self.later_places(later)
            }
        }
    }

    fn later_places(&mut self, places: &[u64]) -> Result<(), AllocError>
        ensures { OnOk result (self.new.bytes.items
            ≡ self.old.bytes.items ++ flat_map (λ next. codes "," ++ decimal next) places.now) }
    {
        for place in places {
            self.text(",")?;
            self.digits(*place)?;
        }
        Ok(())
    }
}
