//! Laws of the definitions.
ghost use Rattle.std.specs.Prelude.{◌≡◌};
ghost use Rattle.std.specs.List.{filter_map};
ghost use Rattle.st_report.specs.declared.report.Form.TheVariants as form;
ghost use Rattle.st_report.specs.declared.report.Report.{Report};
ghost use Rattle.st_report.specs.Text.{lines_of};
ghost use Rattle.st_report.specs.Forms.{in_form, untraced};

/// The lines of a report without its trace are those of its trace form, less its event lines, and
/// its answer lines less their places.
pub fn forms_tell_the_same()
    ensures { (report : Report) → lines_of (in_form form.Answers report)
        ≡ filter_map untraced (lines_of (in_form form.Trace report)) }
{}
