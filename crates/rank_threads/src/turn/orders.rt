//! Part 4 of a turn: what the script's next line asks for, and whether an image is due.
ghost use Rattle.std.specs.Prelude.{◌≡◌};
ghost use Rattle.rank_threads.specs.Orders.{images_after, is_due, is_due_after, is_image, order_after};

use super::stepping::Stepped;
use crate::life::Life;
use rank_text::script::Order;
use std::num::NonZeroU32;

/// What the script's next line asks for after this step.
pub fn order_after(stepped: Stepped, life: &Life<'_, '_>) -> Option<Order>
    ensures { result ≡ order_after stepped life.now.kit.plan life.now.node.phase }
{
    match stepped {
        Stepped::Acted => life.kit.plan.order_at(life.node.clock()),
        Stepped::Moved | Stepped::Blocked | Stepped::Held | Stepped::Ended => None,
    }
}

/// Whether the rank is to take an image.
pub fn is_image(order: Option<Order>) -> bool
    ensures { result ≡ is_image order }
{
    match order {
        Some(Order::Image) => true,
        Some(Order::Kill) | None => false,
    }
}

/// Whether an image is to be taken after this step: the script's next line asks
/// for it, or it is due, as the rank takes one after each so many acts.
pub fn images_after(
    order: Option<Order>,
    stepped: Stepped,
    every: Option<NonZeroU32>,
    life: &Life<'_, '_>,
) -> bool
    requires { order ≡ order_after stepped life.now.kit.plan life.now.node.phase }
    ensures { result ≡ images_after stepped every life.now.kit.plan life.now.node.phase }
{
    is_image(order) || is_due_after(stepped, every, life)
}

fn is_due_after(stepped: Stepped, every: Option<NonZeroU32>, life: &Life<'_, '_>) -> bool
    ensures { result ≡ is_due_after stepped every life.now.node.phase }
{
    match stepped {
        Stepped::Acted => is_due(every, life.node.clock()),
        Stepped::Moved | Stepped::Blocked | Stepped::Held | Stepped::Ended => false,
    }
}

// Whether the clock is a multiple of this number of acts.
fn is_due(every: Option<NonZeroU32>, clock: u32) -> bool
    ensures { result ≡ is_due every clock }
{
    match every {
        Some(every) => clock % every == 0,
        None => false,
    }
}
