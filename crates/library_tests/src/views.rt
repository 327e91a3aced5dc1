//! What a session shows of its platform, and that it asks nothing once an area failed.

ghost use Rattle.std.specs.Prelude.{IfOk};
ghost use Rattle.namespace_core.specs.Sessions.{IsCurrent};

use crate::areas::{blank, initialised};
use crate::two_modules::platform;
use cmd_words::Command;
use namespace_core::{RunFault, Session};
use rig_trait::{FileRig, MemoryRig, Rig, Shown};
use std::alloc::{AllocError, Global};
use std::test::Fail;
use uuid::Uuid;
use view_types::{AreaState, Status, View};

const UUID: [u8; 16] = [0x0f; 16];

/// A namespace of 4 MiB.
const CREATE: Command = Command::Create {
    region: 1,
    size: 0x40_0000,
    name: [0; 64],
    abstraction: [0; 16],
    sector: 512,
    uuid: Some(UUID),
};

/// A rig with two areas of two slots that were initialised.
fn both(alloc: Global) -> Result<MemoryRig, AllocError> {
    let mut rig = MemoryRig::new(alloc, 0)?;
    rig.add(0x1, initialised(alloc)?)?;
    rig.add(0x101, initialised(alloc)?)?;
    Ok(rig)
}

/// A session of the platform of two modules.
fn start(alloc: Global, rig: &mut MemoryRig) -> Result<Session, Fail>
    ensures { IfOk result (IsCurrent ⟦<MemoryRig as Shown>⟧ rig.new) }
{
    let platform = platform(alloc)?;
    match Session::start(alloc, platform, rig) {
        Ok(session) => Ok(session),
        Err(_) => Err(Fail::from("no session")),
    }
}

/// What is shown of the region, and of both modules: a status, how many namespaces and free extents, and the states.
type Shows = (Status, usize, usize, [(u32, AreaState); 2]);

fn shown(view: &View) -> Option<Shows> {
    let [region] = view.regions.as_slice() else {
        return None;
    };
    let [one, two] = view.modules.as_slice() else {
        return None;
    };
    let states = [(one.dimm, one.state), (two.dimm, two.state)];
    Some((
        region.status,
        region.namespaces.len(),
        region.free.len(),
        states,
    ))
}

/// A module that is not initialised, and another one that is missing.
#[test]
fn unready(rt: HostRuntime) -> Result<(), Fail> {
    let alloc = rt.alloc();
    let mut rig = MemoryRig::new(alloc, 0)?;
    rig.add(0x1, blank(alloc)?)?;
    let view = start(alloc, &mut rig)?.view(alloc)?;
    let state = AreaState::Uninit;
    let status = Status::Area { dimm: 0x1, state };
    let states = [(0x1, state), (0x101, AreaState::Missing)];
    assert_eq!(rt; shown(&view), Some((status, 0, 0, states)));
    Ok(())
}

/// The states of two modules with so many spare slots of two.
fn spare(spare: u32) -> [(u32, AreaState); 2] {
    let state = AreaState::Ready { slots: 2, spare };
    [(0x1, state), (0x101, state)]
}

#[test]
fn before_a_create(rt: HostRuntime) -> Result<(), Fail> {
    let alloc = rt.alloc();
    let mut rig = both(alloc)?;
    let view = start(alloc, &mut rig)?.view(alloc)?;
    assert_eq!(rt; shown(&view), Some((Status::Ready, 0, 1, spare(2))));
    Ok(())
}

#[test]
fn behind_a_create(rt: HostRuntime) -> Result<(), Fail> {
    let alloc = rt.alloc();
    let mut rig = both(alloc)?;
    let mut session = start(alloc, &mut rig)?;
    let created = session.apply(alloc, &mut rig, &CREATE, Uuid::nil());
    assert!(rt; created.is_ok());
    let view = session.view(alloc)?;
    assert_eq!(rt; shown(&view), Some((Status::Ready, 1, 1, spare(1))));
    Ok(())
}

/// The third of the writes of a create fails, behind four calls that read the areas. Then the session asks nothing of
/// any rig.
#[test]
fn spent(rt: HostRuntime) -> Result<(), Fail> {
    let alloc = rt.alloc();
    let mut rig = both(alloc)?;
    rig.fail_at(vec![in alloc; 6]?);
    let mut session = start(alloc, &mut rig)?;
    let failed = session.apply(alloc, &mut rig, &CREATE, Uuid::nil());
    assert!(rt; matches!(failed, Err(RunFault::Area { dimm: 0x101 })));
    let mut silent = FileRig::new(rt, alloc, ".")?;
    let again = session.apply(alloc, &mut silent, &CREATE, Uuid::nil());
    assert!(rt; matches!(again, Err(RunFault::Spent)));
    assert_eq!(rt; (silent.reads(), silent.faults()), (0, 0));
    Ok(())
}
