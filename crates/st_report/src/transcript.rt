//! The text of a report.
ghost use Rattle.std.specs.List.{flat_map};
ghost use Rattle.std.specs.Prelude.{◌≡◌, ◌++◌, IfOk, OnOk};
ghost use Rattle.st_report.specs.Text.{answer_count, end_line, line_text, shown, text_of};

use crate::report::{Form, Report};
use crate::writer::Writer;
use st_fold::Life;
use std::alloc::{AllocError, Global};

impl Writer {
    fn shown(&mut self, form: Form, lives: &[Life]) -> Result<(), AllocError>
        ensures { OnOk result (self.new.bytes.items
            ≡ self.old.bytes.items ++ flat_map line_text (shown form lives.now)) }
    {
        match form {
            Form::Answers => self.lives(false, lives),
            Form::Trace => self.lives(true, lives),
            Form::Summary => {
                self.text("lives")?;
                self.number(lives.len() as u64)?;
                self.end_line()
            }
        }
    }

    fn end(&mut self, status: u8, answers: u64) -> Result<(), AllocError>
        ensures { OnOk result (self.new.bytes.items
            ≡ self.old.bytes.items ++ line_text (end_line status answers)) }
    {
        self.labelled("end status", u64::from(status))?;
        self.labelled(" asked", answers)?;
        self.labelled(" answered", answers)?;
        self.end_line()
    }
}

/// The text of a report, in its form.
pub fn text(alloc: Global, report: &Report) -> Result<Vec<u8>, AllocError>
    ensures { IfOk result (λ bytes. bytes.items ≡ text_of report.now) }
{
    let mut out = Writer {
        alloc,
        bytes: Vec::new(alloc),
    };
    out.shown(report.form, report.lives.as_slice())?;
    out.fault_line(&report.fault)?;
    let answers = answer_count(report.lives.as_slice())?;
    out.end(report.status, answers)?;
    let Writer { bytes, .. } = out;
    Ok(bytes)
}

// More answers than a u64 counts don't fit into memory.
fn answer_count(lives: &[Life]) -> Result<u64, AllocError>
    ensures { IfOk result (λ count. count ≡ answer_count lives.now) }
{
    let mut count: u64 = 0;
    for life in lives {
        count = count
            .checked_add(life.answers.len() as u64)
            .ok_or(AllocError)?;
    }
    Ok(count)
}
