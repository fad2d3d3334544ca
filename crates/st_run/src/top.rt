//! The top call: from the words of the command line, the bytes of a script and a disk to the bytes of a transcript and the disk.
ghost use Rattle.std.specs.Io.KnownBytes.{Appends};
ghost use Rattle.std.specs.Prelude.{◌≡◌, ◌≢◌, ◌↔◌, [], map, is_some, Some, None, IsSome, IfSome};
ghost use Rattle.std.specs.String.{string_bytes};
ghost use Rattle.st_fold.specs.Endings.{status_of};
ghost use Rattle.st_script.specs.Playable.{IsPlayable};
ghost use Rattle.st_run.specs.Command.{form_named, form_of};
ghost use Rattle.st_run.specs.Headline.{HasReadCause, IsComplete, IsConsistent, IsOfDevice, IsOfScript, IsReadOut, Reports, Writes};
ghost use Rattle.st_run.specs.Replayed.{IsOfRun, Runs};

use crate::command::form_named;
use crate::counted::{Counted, HandedIn};
use crate::lives::{Ran, run_lives};
use st_disk::CrashDisk;
use st_fold::{Fault, Kind, Script};
use st_io::{ReadAll, Sink, Source, WriteAll, read_all, write_all};
use st_life::lives_are_demanded;
use st_list::Items;
use st_model::no_life_is_demanded;
use st_report::{Form, Report, text};
use st_script::{MAX_BYTES, ScriptRefusal, read};
use std::alloc::Global;
use std::marker::Brand;

/// How a run ended.
#[derive(Drop)]
pub struct Ended<D> {
    /// The status of the command: that of the report, or 5 where the transcript couldn't be written, or 9 where memory
    /// was refused for it.
    pub status: u8,
    pub report: Report,
    pub disk: D,
}

// A report, and the disk that its run left.
#[derive(Drop)]
struct Reported<D> {
    report: Report,
    disk: D,
}

/// Serves the command `replay`, with or without `--trace` after it: reads a script, plays its lives in one thread by their
/// written schedules over the disk, and writes the transcript, with or without the trace of each life.
pub fn tool<S: Source, K: Sink, D: CrashDisk>(
    alloc: Global,
    words: &[String],
    script: &mut S,
    out: &mut K,
    disk: D,
) -> Ended<D>
    ensures words { (result.report.fault ≡ Some Fault.Words) ↔ (form_named (map string_bytes words.now) ≡ None) }
    ensures form { result.report.form ≡ form_of (map string_bytes words.now) }
    ensures script { IsSome (form_named (map string_bytes words.now))
        → IfSome (S.left script.old) (λ bytes. Reports D.history bytes disk result.disk result.report) }
    ensures consistent { IsConsistent result.report }
    ensures untouched { result.report.fault ≡ Some Fault.Words → result.disk ≡ disk }
    ensures read_out { IsReadOut (S.left script.old) (S.left script.new) result.report.fault }
    ensures read_cause { HasReadCause (S.faults script.old) (S.faults script.new) result.report.fault }
    ensures device { IsOfDevice (D.fault_count disk) (D.fault_count result.disk) result.report.fault }
    ensures written { Writes (K.held out.old) (K.held out.new) (K.faults out.old) (K.faults out.new)
        result.report result.status }
    ensures complete { IsSome (form_named (map string_bytes words.now))
        → IfSome (S.left script.old) (λ bytes. IsComplete D.history D.fault_count bytes (S.faults script.old) (S.faults script.new)
        disk result.disk (K.held out.old) (K.held out.new) (K.faults out.old) (K.faults out.new) result.report result.status) }
{
    let Reported { report, disk } = report_on(alloc, words, script, disk);
    let status = write_report(alloc, &report, out);
    Ended {
        status,
        report,
        disk,
    }
}

// A report of no lives, over a disk that wasn't touched.
fn faulty<D>(alloc: Global, form: Form, fault: Fault, disk: D) -> Reported<D>
    ensures { result ≡ record {
      report = record { status = status_of (Some fault); fault = Some fault; lives = []; form = form };
      disk = disk;
    } }
{
    let fault = Some(fault);
    Reported {
        report: Report {
            status: status_of(&fault),
            fault,
            lives: Items::new(alloc),
            form,
        },
        disk,
    }
}

fn status_of(fault: &Option<Fault>) -> u8
    ensures { result ≡ status_of fault.now }
{
    match fault {
        None => 0,
        Some(Fault::Words) => 2,
        Some(Fault::Script { .. }) => 3,
        Some(Fault::Read { .. }) => 4,
        Some(Fault::Device { .. }) => 6,
        Some(Fault::Peer { .. }) => 7,
        Some(Fault::Damaged(_)) => 8,
        Some(Fault::Memory) => 9,
        Some(Fault::Full { .. }) => 10,
        Some(Fault::Foreign(_)) => 11,
    }
}

fn report_on<S: Source, D: CrashDisk>(
    alloc: Global,
    words: &[String],
    script: &mut S,
    disk: D,
) -> Reported<D>
    ensures words { (result.report.fault ≡ Some Fault.Words) ↔ (form_named (map string_bytes words.now) ≡ None) }
    ensures form { result.report.form ≡ form_of (map string_bytes words.now) }
    ensures script { IsSome (form_named (map string_bytes words.now))
        → IfSome (S.left script.old) (λ bytes. Reports D.history bytes disk result.disk result.report) }
    ensures consistent { IsConsistent result.report }
    ensures untouched { result.report.fault ≡ Some Fault.Words → result.disk ≡ disk }
    ensures read_out { IsReadOut (S.left script.old) (S.left script.new) result.report.fault }
    ensures read_cause { HasReadCause (S.faults script.old) (S.faults script.new) result.report.fault }
    ensures device { IsOfDevice (D.fault_count disk) (D.fault_count result.disk) result.report.fault }
{
    match form_named(words) {
        Some(form) => read_and_replay(alloc, form, script, disk),
        None => faulty(alloc, Form::Answers, Fault::Words, disk),
    }
}

fn read_and_replay<S: Source, D: CrashDisk>(
    alloc: Global,
    form: Form,
    script: &mut S,
    disk: D,
) -> Reported<D>
    ensures words { result.report.fault ≢ Some Fault.Words }
    ensures form { result.report.form ≡ form }
    ensures script { IfSome (S.left script.old) (λ bytes. Reports D.history bytes disk result.disk result.report) }
    ensures consistent { IsConsistent result.report }
    ensures read_out { IsReadOut (S.left script.old) (S.left script.new) result.report.fault }
    ensures read_cause { HasReadCause (S.faults script.old) (S.faults script.new) result.report.fault }
    ensures device { IsOfDevice (D.fault_count disk) (D.fault_count result.disk) result.report.fault }
{
    match read_all(alloc, script, MAX_BYTES as u64) {
        Ok(bytes) => replay(alloc, form, &bytes, disk),
        Err(ReadAll::ReadFault { faults }) => faulty(alloc, form, Fault::Read { faults }, disk),
        Err(ReadAll::TooLong { .. }) => faulty(
            alloc,
            form,
            Fault::Script {
                line: 0,
                kind: Kind::Long,
            },
            disk,
        ),
        Err(ReadAll::NoMemory) => faulty(alloc, form, Fault::Memory, disk),
    }
}

// A report on these bytes.
fn replay<D: CrashDisk>(alloc: Global, form: Form, bytes: &[u8], disk: D) -> Reported<D>
    ensures reports { Reports D.history bytes.now disk result.disk result.report }
    ensures form { result.report.form ≡ form }
    ensures consistent { IsConsistent result.report }
    ensures fault { IsOfScript result.report.fault }
    ensures device { IsOfDevice (D.fault_count disk) (D.fault_count result.disk) result.report.fault }
{
    match read(alloc, bytes) {
        Ok(script) => {
            let Ran { lives, fault, disk } = run::<Brand, D>(alloc, script, disk);
            Reported {
                report: Report {
                    status: status_of(&fault),
                    fault,
                    lives,
                    form,
                },
                disk,
            }
        }
        Err(ScriptRefusal::Bad { line, kind }) => {
            faulty(alloc, form, Fault::Script { line, kind }, disk)
        }
        Err(ScriptRefusal::NoMemory) => faulty(alloc, form, Fault::Memory, disk),
    }
}

// The lives of a script over a disk that was handed in.
fn run<C: HandedIn, D: CrashDisk>(alloc: Global, script: Script, disk: D) -> Ran<D>
    requires playable { IsPlayable script }
    requires least { C.least ≡ D.fault_count disk }
    requires told { C.told ≡ is_some (D.history disk) }
    ensures runs { IfSome (D.history disk) (λ h. Runs D.history script h result) }
    ensures fault { IsOfRun (D.fault_count disk) (D.fault_count result.disk) result.fault }
{
    lives_are_demanded();
    no_life_is_demanded();
    let Ran { lives, fault, disk } = run_lives(alloc, script, Counted::<C, D>::new(disk));
    Ran {
        lives,
        fault,
        disk: disk.into_inner(),
    }
}

/// The report where memory was refused for the words of the command line.
pub fn without_words<K: Sink, D: CrashDisk>(alloc: Global, out: &mut K, disk: D) -> Ended<D>
    ensures report { result.report ≡ record { status = 9; fault = Some Fault.Memory; lives = []; form = Form.Answers } }
    ensures disk { result.disk ≡ disk }
    ensures written { Writes (K.held out.old) (K.held out.new) (K.faults out.old) (K.faults out.new)
        result.report result.status }
{
    let Reported { report, disk } = faulty(alloc, Form::Answers, Fault::Memory, disk);
    let status = write_report(alloc, &report, out);
    Ended {
        status,
        report,
        disk,
    }
}

fn write_report<K: Sink>(alloc: Global, report: &Report, out: &mut K) -> u8
    ensures { Writes (K.held out.old) (K.held out.new) (K.faults out.old) (K.faults out.new) report.now result }
{
    let Ok(bytes) = text(alloc, report) else {
        return 9;
    };
    match write_all(out, &bytes) {
        Ok(()) => report.status,
        Err(WriteAll::WriteFault { .. }) => 5,
        Err(WriteAll::NoMemory { .. }) => 9,
    }
}
