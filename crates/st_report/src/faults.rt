//! The fault line.
ghost use Rattle.std.specs.List.{flat_map};
ghost use Rattle.std.specs.Prelude.{◌≡◌, ◌++◌, OnOk};
ghost use Rattle.st_report.specs.Text.{damage_words, fault_lines, fault_words, foreign_words, kind_word, line_text, part_word, spaced};

use crate::writer::Writer;
use st_fold::{Damage, Fault, ForeignPart, Kind, MetaPart};
use std::alloc::AllocError;

impl Writer {
    fn script_fault(&mut self, line: u64, kind: Kind) -> Result<(), AllocError>
        ensures { OnOk result (self.new.bytes.items
            ≡ self.old.bytes.items ++ flat_map spaced (fault_words (Fault.Script line kind))) }
    {
        self.labelled(" script line", line)?;
        self.word(kind_word(kind))
    }

    fn damage(&mut self, damage: Damage) -> Result<(), AllocError>
        ensures { OnOk result (self.new.bytes.items
            ≡ self.old.bytes.items ++ flat_map spaced (damage_words damage)) }
    {
        match damage {
            Damage::File { file, at } => {
                self.number(u64::from(file))?;
                self.number(at)
            }
            Damage::Meta { which } => {
                self.word("meta")?;
                self.word(part_word(which))
            }
        }
    }

    fn foreign(&mut self, part: &ForeignPart) -> Result<(), AllocError>
        ensures { OnOk result (self.new.bytes.items
            ≡ self.old.bytes.items ++ flat_map spaced (foreign_words part.now)) }
    {
        match part {
            ForeignPart::Version => self.word("version"),
            ForeignPart::Assigned => self.word("assigned"),
            ForeignPart::Key(key) => {
                self.word("key")?;
                self.bytes(key.as_slice())
            }
        }
    }

    fn fault(&mut self, fault: &Fault) -> Result<(), AllocError>
        ensures { OnOk result (self.new.bytes.items
            ≡ self.old.bytes.items ++ flat_map spaced (fault_words fault.now)) }
    {
        match fault {
            Fault::Words => self.word("words"),
            Fault::Script { line, kind } => self.script_fault(*line, *kind),
            Fault::Read { faults } => self.labelled(" read", *faults),
            Fault::Device { faults } => self.labelled(" device", *faults),
            Fault::Peer { faults } => self.labelled(" peer", *faults),
            Fault::Damaged(damage) => {
                self.word("damaged")?;
                self.damage(*damage)
            }
            Fault::Memory => self.word("memory"),
            Fault::Full { length, limit } => {
                self.labelled(" full", *length)?;
                self.number(*limit)
            }
            Fault::Foreign(part) => {
                self.word("foreign")?;
                self.foreign(part)
            }
        }
    }

    /// The fault line, where there is a fault.
    pub fn fault_line(&mut self, fault: &Option<Fault>) -> Result<(), AllocError>
        ensures { OnOk result (self.new.bytes.items
            ≡ self.old.bytes.items ++ flat_map line_text (fault_lines fault.now)) }
    {
        match fault {
            Some(fault) => {
                self.text("fault")?;
                self.fault(fault)?;
                self.end_line()
            }
            None => Ok(()),
        }
    }
}

fn kind_word(kind: Kind) -> &'static str
    ensures { result.now ≡ kind_word kind }
{
    match kind {
        Kind::Head => "head",
        Kind::Word => "word",
        Kind::Number => "number",
        Kind::Hex => "hex",
        Kind::Key => "key",
        Kind::Value => "value",
        Kind::Range => "range",
        Kind::Version => "version",
        Kind::Order => "order",
        Kind::Limit => "limit",
        Kind::End => "end",
        Kind::Long => "long",
        Kind::Unbuilt => "unbuilt",
    }
}

fn part_word(part: MetaPart) -> &'static str
    ensures { result.now ≡ part_word part }
{
    match part {
        MetaPart::Version => "version",
        MetaPart::Assigned => "assigned",
        MetaPart::Available => "available",
        MetaPart::Other => "other",
    }
}
