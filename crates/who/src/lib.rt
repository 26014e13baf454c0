// The engine without clocks: a step is decided, checked and carried out. 9 and 11 are no part of it.
#![tactic(auto)]

ghost use Rattle.std.specs.Prelude.{◌≡◌, ◌*◌, length, None};
ghost use Rattle.rules.specs.Sizes.{slot_count};
ghost use Rattle.rules.specs.Refusals.{first};
ghost use Rattle.replies.specs.declared.Reply.TheVariants.{Refused};
ghost use Rattle.head.specs.View.{plain_of, Shaped, Answers};
ghost use Rattle.planning.specs.Plans.{actor_grounds};
ghost use Rattle.choosing.specs.Choice.{effect_by};
ghost use Rattle.resting.specs.Resting.{HasSlot};
ghost use Rattle.doing.specs.Effects.{Able};
ghost use Rattle.who.specs.Steps.{Ready, Steps};

use choosing::Choice;
use head::{Answered, Head};
use replies::{Refusal, Reply};
use rules::{Act, Step, TaskId};

// A reply without grants, and the head as it is.
fn stay(h: Head, reply: Reply) -> Answered
    ensures { result ≡ record { reply = reply; count = 0; head = h } }
{
    Answered {
        reply,
        count: 0,
        head: h,
    }
}

// A step that is refused.
fn refuse(h: Head, why: Refusal) -> Answered
    ensures { result ≡ record { reply = Refused why; count = 0; head = h } }
{
    stay(h, Reply::Refused(why))
}

// The effect of what a step comes to: at rest, or else by what moves.
fn effect(
    h: Head,
    slots: &mut [u32],
    tasks: &mut [u32],
    grants: &mut [u32],
    me: TaskId,
    c: Choice,
) -> Answered
    requires { (Shaped h slots.old tasks.old) × (length grants.old ≡ slot_count * 3) × (HasSlot c) × (Able c (plain_of h slots.old tasks.old)) }
    ensures { Answers result slots.new tasks.new grants.new (effect_by me c (plain_of h slots.old tasks.old)) }
{
    match resting::effect_at_rest(slots, tasks, h.tasks, me, c) {
        Some(reply) => stay(h, reply),
        None => doing::effect(h, slots, tasks, grants, me, c),
    }
}

// The act of an actor that neither 1 nor 2 refuses.
fn carry_out(
    h: Head,
    slots: &mut [u32],
    tasks: &mut [u32],
    grants: &mut [u32],
    me: TaskId,
    act: Act,
) -> Answered
    requires { (Ready h slots.old tasks.old) × (length grants.old ≡ slot_count * 3) × (first (actor_grounds me (plain_of h slots.old tasks.old)) ≡ None) }
    ensures { Steps result slots.new tasks.new grants.new (record { actor = me; act = act }) h slots.old tasks.old grants.old }
{
    let plan = planning::plan_act(h, slots, act);
    match plan.check {
        Ok(()) => effect(h, slots, tasks, grants, me, plan.choice),
        Err(why) => refuse(h, why),
    }
}

// A step, on a head and words that are ready for one.
pub fn step(h: Head, slots: &mut [u32], tasks: &mut [u32], grants: &mut [u32], a: Step) -> Answered
    requires { (Ready h slots.old tasks.old) × (length grants.old ≡ slot_count * 3) }
    ensures { Steps result slots.new tasks.new grants.new a h slots.old tasks.old grants.old }
{
    match planning::check_actor(h, tasks, a.actor) {
        Ok(()) => carry_out(h, slots, tasks, grants, a.actor, a.act),
        Err(why) => refuse(h, why),
    }
}
