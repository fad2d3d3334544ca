//! The lives of a script, one after the other on one disk.
ghost use Rattle.std.specs.Prelude.{◌≡◌};
ghost use Rattle.st_model.specs.Report.{given_by};
ghost use Rattle.st_run.specs.Ran.{IsServable, RunsOn};

use crate::life::live_on;
use st_disk::CrashDisk;
use st_fold::{Fault, Life, Script};
use st_life::LifeEnded;
use st_list::Items;
use std::alloc::Global;

/// The lives that were begun, the fault that ended them, if any, and their disk.
#[derive(Drop)]
pub(crate) struct Ran<D> {
    pub(crate) lives: Items<Life>,
    pub(crate) fault: Option<Fault>,
    pub(crate) disk: D,
}

fn ran_with<D>(lives: Vec<Life>, fault: Option<Fault>, disk: D) -> Ran<D>
    ensures { result ≡ record { lives = lives.items; fault = fault; disk = disk } }
{
    Ran {
        lives: Items::from_vec(lives),
        fault,
        disk,
    }
}

/// The lives of a script on a disk, up to the first that ends by a fault. There is room for a life before it is begun.
pub(crate) fn run_lives<D: CrashDisk>(alloc: Global, script: Script, disk: D) -> Ran<D>
    requires { IsServable script }
    ensures { RunsOn D.history D.fault_count script script.lives disk result }
{
    let Script {
        settings,
        own,
        mut log,
        lives: plans,
    } = script;
    let mut disk = disk;
    let mut lives = Vec::new(alloc);
    let mut left = plans.as_slice();
    while let Some((plan, later)) = left.split_first() {
        left = later;
        if lives.reserve(1).is_err() {
            return ran_with(lives, Some(Fault::Memory), disk);
        }
        let LifeEnded {
            life,
            disk: left_disk,
            fault,
            log: left_log,
        } = live_on(alloc, &settings, &own, log, plan, disk);
        disk = left_disk;
        log = left_log;
        let Some(life) = life else {
            return ran_with(lives, fault, disk);
        };
        lives.push_reserved(life);
        if fault.is_some() {
            return ran_with(lives, fault, disk);
        }
    }
    ran_with(lives, None, disk)
}
