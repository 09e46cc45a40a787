//! What a core's monitor does without the firmware, by its side of a port.

ghost use Rattle.std.specs.Prelude.{◌≡◌, true};
ghost use Rattle.psci_enter.specs.Side.{at, fresh, heard, may_look};
ghost use Rattle.psci_enter.specs.declared.post.Post.TheVariants as posts;
ghost use Rattle.psci_ffi.specs.PortShown.{door_given, is_at, look_left, look_number, look_said};
ghost use Rattle.psci_ffi.specs.PortShown.{side_given, side_shown, turn_left, turn_said};

use crate::codes::NO_CAUSE;
use crate::port_core::{
    NO_SIDE, OUT_OF_ORDER, PortCore, PortDoor, door_given, side_given, side_shown,
};
use psci_board::Core;
use psci_enter::{FirmwareSide, Look, Post};

/// A turn of the monitor that C holds, where its core is at this post.
macro_rules! turned {
    ($core:ident, $post:pat, $turn:ident($($with:expr)?)) => {{
        let Some(mut side) = side_given($core) else {
            return NO_SIDE;
        };
        if !matches!(side.post, $post) {
            return OUT_OF_ORDER;
        }
        side.$turn($($with)?);
        *$core = side_shown(side);
        0
    }};
}

/// Writes what the monitor of a core keeps in a new life.
#[unsafe(no_mangle)]
pub extern "C" fn psci_port_new(side: &mut PortCore, core: u16)
    ensures { side.new ≡ side_shown (fresh (record { number = core })) }
{
    *side = side_shown(FirmwareSide::new(Core { number: core }));
}

/// A look of a core that waits or is armed, at its door and at whether a wake-up is pending for it:
/// 0 it took up the start there, 1 it tells of its wake-up, 2 it rests. From 16 on nothing changed:
/// 21 says a cause that there is not, 48 and 49 as of `psci_port_call`.
#[unsafe(no_mangle)]
pub extern "C" fn psci_port_look(core: &mut PortCore, door: &PortDoor, pending: bool) -> u32
    ensures look { result ≡ look_said (side_given core.old) (door_given door.now) pending }
    ensures side { core.new ≡ look_left core.old (door_given door.now) pending }
{
    let Some(mut side) = side_given(core) else {
        return NO_SIDE;
    };
    if !looks(side.post) {
        return OUT_OF_ORDER;
    }
    let Some(door) = door_given(door) else {
        return NO_CAUSE;
    };
    let look = side.look(door, pending);
    *core = side_shown(side);
    look_number(look)
}

/// A core that is on its way to its stop is about to stand, and says its word last of all. 0; from
/// 16 on nothing changed, as of all calls below: 48 and 49 as of `psci_port_call`.
#[unsafe(no_mangle)]
pub extern "C" fn psci_port_stands(core: &mut PortCore) -> u32
    ensures said { result ≡ turn_said (is_at posts.Leaving) (side_given core.old) }
    ensures side { core.new ≡ turn_left (is_at posts.Leaving) (at posts.Waiting) core.old }
{
    turned!(core, Post::Leaving, stands())
}

/// The same with the lock in hand, where the power controller is in the monitors.
#[unsafe(no_mangle)]
pub extern "C" fn psci_port_arms(core: &mut PortCore) -> u32
    ensures said { result ≡ turn_said (is_at posts.Leaving) (side_given core.old) }
    ensures side { core.new ≡ turn_left (is_at posts.Leaving) (at posts.Armed) core.old }
{
    turned!(core, Post::Leaving, arms())
}

/// An armed core comes to its WFI.
#[unsafe(no_mangle)]
pub extern "C" fn psci_port_sleeps(core: &mut PortCore) -> u32
    ensures said { result ≡ turn_said (is_at posts.Armed) (side_given core.old) }
    ensures side { core.new ≡ turn_left (is_at posts.Armed) (at posts.Waiting) core.old }
{
    turned!(core, Post::Armed, sleeps())
}

/// An interrupt has ended the WFI of a core that was armed before it.
#[unsafe(no_mangle)]
pub extern "C" fn psci_port_rouses(core: &mut PortCore) -> u32
    ensures said { result ≡ turn_said (is_at posts.Waiting) (side_given core.old) }
    ensures side { core.new ≡ turn_left (is_at posts.Waiting) (at posts.Armed) core.old }
{
    turned!(core, Post::Waiting, rouses())
}

/// An armed core has told its own wake-up, with the lock in hand; it was started, or not.
#[unsafe(no_mangle)]
pub extern "C" fn psci_port_rises(core: &mut PortCore, started: bool) -> u32
    ensures said { result ≡ turn_said (is_at posts.Armed) (side_given core.old) }
    ensures side { core.new ≡ turn_left (is_at posts.Armed) (at (heard started)) core.old }
{
    turned!(core, Post::Armed, rises(started))
}

/// A core that woke itself has given the lock back, and goes to its door.
#[unsafe(no_mangle)]
pub extern "C" fn psci_port_turns(core: &mut PortCore) -> u32
    ensures said { result ≡ turn_said (is_at posts.Woken) (side_given core.old) }
    ensures side { core.new ≡ turn_left (is_at posts.Woken) (at posts.Waiting) core.old }
{
    turned!(core, Post::Woken, turns())
}

/// The core comes out of a reset of its own, and goes to its door.
#[unsafe(no_mangle)]
pub extern "C" fn psci_port_comes_back(core: &mut PortCore) -> u32
    ensures said { result ≡ turn_said (λ post. true) (side_given core.old) }
    ensures side { core.new ≡ turn_left (λ post. true) (at posts.Waiting) core.old }
{
    turned!(core, _, comes_back())
}

/// Whether a core looks at its door.
fn looks(post: Post) -> bool
    ensures { result ≡ may_look post }
{
    matches!(post, Post::Waiting | Post::Armed)
}

/// The number of what a look finds.
fn look_number(look: Look) -> u32
    ensures { result ≡ look_number look }
{
    match look {
        Look::Enter => 0,
        Look::Tell(_) => 1,
        Look::Rest => 2,
    }
}
