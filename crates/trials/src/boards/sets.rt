// Condition sets from their members.
use crate::generator::sets::Draw;
use conditions::plain::Plain;
use conditions::set::ConditionSet;
use conditions::word::Word;
use paper::own::OwnBinding;
use routing::binding::Binding;

pub trait Build: Draw {
    // The settings whose bits are 1.
    fn with_members(bits: u64) -> Self;
}

impl Build for Plain {
    fn with_members(bits: u64) -> Plain {
        Plain(bits & 1 == 1)
    }
}

impl Build for Word {
    fn with_members(bits: u64) -> Word {
        Word(bits)
    }
}

// How many settings there are.
pub fn settings<S: Build>() -> u32 {
    1u32.wrapping_shl(S::conditions())
}

// The binding of a network that an own binding is: under each setting with every condition of `on` and none of `off`.
pub fn link<S: Build>(own: &OwnBinding) -> Binding<S> {
    let (on, off) = (u32::from(own.on), u32::from(own.off));
    let mut bits = 0u64;
    for setting in 0..settings::<S>() {
        if setting & on == on && setting & off == 0 {
            bits |= 1u64.wrapping_shl(setting);
        }
    }
    Binding {
        from: own.from,
        to: own.to,
        set: S::with_members(bits),
    }
}

// Whether two bindings join the same places under the same settings.
pub fn same_binding<A: ConditionSet, S: Build>(one: &Binding<A>, other: &Binding<S>) -> bool {
    let mut same = one.from == other.from && one.to == other.to;
    for setting in 0..settings::<S>() {
        same &= one.set.contains(setting) == other.set.contains(setting);
    }
    same
}
