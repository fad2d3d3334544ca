ghost use Rattle.std.specs.Prelude.{◌≡◌, ◌∷◌, [], None, true, IfOk, IfSome};
ghost use Rattle.st_board.specs.Stands.{IsStill};
ghost use Rattle.st_disk.specs.Fuse.{fused_history};
ghost use Rattle.st_disk.specs.History.{fresh, seen};
ghost use Rattle.st_disk.specs.Recorded.{history_of};
ghost use Rattle.st_key.specs.Spans.{all_keys};
ghost use Rattle.st_life.specs.Play.{bounds_of};
ghost use Rattle.st_life.specs.Readers.{AreAskable, IsAskable};
ghost use Rattle.st_life.specs.Running.{LetsThrough};
ghost use Rattle.st_ptree.specs.Entries.{pairs_of};
ghost use Rattle.st_run.specs.Opening.{OpensTo};

use super::*;
use st_board::Story;
use st_disk::{Fused, Memory};
use st_fold::{
    Act, Answer, Ask, Damage, Ending, Event, Fault, ForeignPart, LifePlan, Request, Settings,
};
use st_key::{Key, MetaPart, Range, Ranges};
use st_life::{LifeEnded, life_plain};
use st_list::Items;
use st_mutation::Batch;
use std::alloc::Global;
use std::marker::Brand;
use std::process::Abort;
use std::test::Fail;

const SETTINGS: Settings = Settings {
    window: 1,
    patience: 3,
    seed: 1,
    swap: 64,
    limit: 1024,
    quota: 1,
    block: 1,
    watches: 1,
};

// A file with a frame that stores nothing.
const NO_STATE: &[u8] =
    b"\x01STORQUE\x01\0\0\0\x01\0\0\0\0\0\0\0\0\0\0\0\0\0\0\0\x01\x01\0\0\0\0\0\0\0\0\0\0\0\x05\0";

// A file with a frame of the three pairs of a server that has no key, at version 1.
const AT_1: &[u8] = b"\
    \x01STORQUE\x01\0\0\0\x01\0\0\0\0\0\0\0\0\0\0\0\0\0\0\0\
    \x01\x4d\0\0\0\0\0\0\0\0\0\0\0\
    \x01\x0b\0\0\0\x04\0\0\0\xff\xff/assigned\0\0\0\0\
    \x01\x0c\0\0\0\x04\0\0\0\xff\xff/available\0\0\0\0\
    \x01\x0a\0\0\0\x08\0\0\0\xff\xff/version\x01\0\0\0\0\0\0\0\
    \x05\0";

// A file whose header is another one's.
const OTHER: &[u8] = b"\x01STORQUE\x02\0\0\0\x01\0\0\0\0\0\0\0\0\0\0\0\0\0\0\0\0";

fn all_keys(alloc: Global) -> Result<Ranges, Fail>
    ensures { IfOk result (λ ranges. ranges ≡ all_keys ∷ []) }
{
    let range = Range::new(Key::end(alloc, b"")?, Key::end(alloc, b"\xff")?)?;
    Ok(Ranges::of(alloc, range)?)
}

// A batch of version 1 that changes nothing.
fn batch(alloc: Global) -> Batch {
    Batch {
        version: 1,
        moves: Items::new(alloc),
        mutations: Items::new(alloc),
    }
}

// The version at which a file opens, or why it doesn't.
fn version(
    alloc: Global,
    file: &[u8],
    own: &Ranges,
    log: &[Batch],
) -> Result<Result<u64, Fault>, Fail> {
    let disk = Memory::with(alloc, Vec::from_slice(alloc, file)?, Vec::new(alloc));
    match open(alloc, disk, &SETTINGS, own, log) {
        Ok(opened) => Ok(Ok(opened.opening.version)),
        Err(NotOpened { disk, why }) => {
            if disk.bytes(0) != file {
                return Err("a refused file is changed")?;
            }
            Ok(Err(why))
        }
    }
}

#[test]
fn stores_are_opened_as_their_files_say(rt: HostRuntime) -> Result<(), Fail> {
    let alloc = rt.alloc();
    let (own, none) = (all_keys(alloc)?, Ranges::new(alloc));
    let log = [batch(alloc)];
    assert!(rt; matches!(version(alloc, b"", &own, &log)?, Ok(0)));
    assert!(rt; matches!(version(alloc, AT_1, &none, &log)?, Ok(1)));
    assert!(rt;
        matches!(
            version(alloc, AT_1, &none, &[])?,
            Err(Fault::Foreign(ForeignPart::Version))
        )
    );
    assert!(rt;
        matches!(
            version(alloc, AT_1, &own, &log)?,
            Err(Fault::Foreign(ForeignPart::Assigned))
        )
    );
    assert!(rt;
        matches!(
            version(alloc, NO_STATE, &own, &log)?,
            Err(Fault::Damaged(Damage::Meta {
                which: MetaPart::Version
            }))
        )
    );
    assert!(rt;
        matches!(
            version(alloc, OTHER, &own, &log)?,
            Err(Fault::Damaged(Damage::File { file: 0, at: 1 }))
        )
    );
    Ok(())
}

// A request of reader 1 for the value of a at version 0.
fn request(alloc: Global) -> Result<Request, Fail>
    ensures { IfOk result IsAskable }
{
    Ok(Request {
        number: 1,
        reader: 1,
        ask: Ask::Get(Key::read(alloc, b"a")?, 0),
    })
}

// A life with this request, which isn't killed.
fn plan(alloc: Global) -> Result<LifePlan, Fail>
    ensures askable { IfOk result AreAskable }
    ensures upto { IfOk result (λ plan. plan.upto ≡ 1) }
    ensures kill { IfOk result (λ plan. plan.kill ≡ None) }
{
    let mut asks = Items::new(alloc);
    asks.push(request(alloc)?)?;
    Ok(LifePlan {
        upto: 1,
        asks,
        lasts: Items::new(alloc),
        dos: Items::new(alloc),
        cuts: Items::new(alloc),
        peerfails: Items::new(alloc),
        kill: None,
    })
}

// A life that has nothing to do opens, answers its request and closes.
fn live<N: Story>(
    rt: &impl Abort,
    alloc: Global,
    plan: &LifePlan,
    opened: Opened<Fused<Memory>>,
) -> Result<(), Fail>
    requires given { N.given ≡ record { log = []; upto = 1; own = all_keys ∷ []; settings = SETTINGS } }
    requires named { N.opening ≡ record { version = opened.opening.version; available = opened.opening.available } }
    requires store { N.store ≡ record { fresh = opened.engine.store.fresh; pairs = pairs_of opened.opening.base } }
    requires all { opened.opening.available ≡ all_keys ∷ [] }
    requires opens { OpensTo (all_keys ∷ []) [] opened.engine.store opened.opening }
    requires sound { opened.engine.broken ≡ None }
    requires askable { AreAskable plan.now }
    requires upto { plan.now.upto ≡ 1 }
    requires bounds { opened.engine.bounds ≡ bounds_of SETTINGS }
    requires synced { IfSome (fused_history (λ m. Some (history_of m)) opened.engine.disk) (λ h. h.now ≡ (fresh (seen h)).now) }
    requires fuse { IfSome (fused_history (λ m. Some (history_of m)) opened.engine.disk) (LetsThrough plan.now) }
{
    let Ok(server) = begin::<N, Fused<Memory>, ()>(alloc, opened, &SETTINGS, Vec::new(alloc), ())
    else {
        return Err("a server doesn't begin")?;
    };
    assert_eq!(rt; server.board().durable(), 0);
    assert_eq!(rt; server.due(1), None::<Act>);
    let LifeEnded {
        life,
        disk,
        fault,
        log: _,
    } = life_plain(alloc, plan, &SETTINGS, server);
    assert!(rt; fault.is_none());
    assert_eq!(rt; disk.bytes(0).len(), 0);
    let Some(life) = life else {
        return Err("a life doesn't begin")?;
    };
    assert_eq!(rt; life.opened, 0);
    assert_eq!(rt; life.ending, Ending::Closed);
    assert!(rt; matches!(life.trace.as_slice(), [Event::Opened(0), Event::Closed]));
    assert_eq!(rt; life.answers.as_slice().len(), 1);
    for answered in life.answers.as_slice() {
        assert_eq!(rt; answered.request, 1);
        assert_eq!(rt; answered.places.as_slice(), [1].as_slice());
        assert!(rt; matches!(answered.answer, Answer::Absent));
    }
    Ok(())
}

#[test]
fn a_life_is_played_on_a_fresh_store(rt: HostRuntime) -> Result<(), Fail> {
    let alloc = rt.alloc();
    let own = all_keys(alloc)?;
    let plan = plan(alloc)?;
    let disk = Fused::new(Memory::new(alloc), None);
    let Ok(opened) = open(alloc, disk, &SETTINGS, &own, &[]) else {
        return Err("a fresh store isn't opened")?;
    };
    live::<Brand>(&rt, alloc, &plan, opened)
}
