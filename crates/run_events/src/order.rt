//! An order in which nothing comes before what it waits for.

use crate::fault::PlayFault;
use limits::Heap;
use std::alloc::AllocError;

/// What happens in a world that plays a run: the act of this index is made, or the message that it
/// sends arrives.
#[derive(Clone, Copy)]
pub struct Happening {
    pub act: usize,
    pub arrives: bool,
}

// How far an order has come with something that happens.
#[derive(Clone, Copy)]
enum OrderStage {
    Open,
    /// It stands in the order once what comes before it does.
    Begun,
    Placed,
}

// Something that happens, and the first wait of it that wasn't looked at.
#[derive(Clone, Copy)]
struct HappeningState {
    stage: OrderStage,
    wait: Option<usize>,
}

// That something waits for this, and the wait of it to look at next.
#[derive(Clone, Copy)]
struct Dependency {
    before: Happening,
    next: Option<usize>,
}

/// What waits for what.
#[derive(Drop)]
pub struct Dependencies {
    // of each act, and behind it of the arrival of what it sends
    points: Vec<HappeningState, Heap>,
    waits: Vec<Dependency, Heap>,
    // what is begun, each for the sake of the one below it
    begun: Vec<Happening, Heap>,
    order: Vec<Happening, Heap>,
    /// Why there is no order, the first that was found.
    room: Result<(), PlayFault>,
}

fn place_of(happening: Happening) -> usize {
    happening
        .act
        .saturating_mul(2)
        .saturating_add(usize::from(happening.arrives))
}

impl Dependencies {
    /// Of so many acts none waits.
    pub fn new(alloc: Heap, acts: usize) -> Result<Dependencies, AllocError> {
        let point = HappeningState {
            stage: OrderStage::Open,
            wait: None,
        };
        let points = vec![in alloc; point; acts.saturating_mul(2)]?;
        Ok(Dependencies {
            points,
            waits: Vec::new(alloc),
            begun: Vec::new(alloc),
            order: Vec::new(alloc),
            room: Ok(()),
        })
    }

    fn fail(&mut self, fault: PlayFault) {
        if self.room.is_ok() {
            self.room = Err(fault);
        }
    }

    /// The one waits for the other.
    pub fn add(&mut self, after: Happening, before: Happening) {
        let wait = self.waits.len();
        let Some(point) = self.points.get_mut(place_of(after)) else {
            return;
        };
        let next = point.wait;
        point.wait = Some(wait);
        if let Err(_) = self.waits.push(Dependency { before, next }) {
            self.fail(PlayFault::Memory);
        }
    }

    /// All acts, as far as can be in their order, with the arrivals that they
    /// wait for, none before what it waits for itself. There is no such order
    /// where something waits for itself, through others.
    pub fn ordered(mut self) -> Result<Vec<Happening, Heap>, PlayFault> {
        for act in 0..self.points.len() / 2 {
            self.place(act);
        }
        let Dependencies { order, room, .. } = self;
        match room {
            Ok(()) => Ok(order),
            Err(fault) => Err(fault),
        }
    }

    // Places this act, and before it what it waits for.
    fn place(&mut self, act: usize) {
        self.begin(Happening {
            act,
            arrives: false,
        });
        // each turn looks at a wait, or places what is begun
        for _ in 0..self.waits.len().saturating_add(self.points.len()) {
            let Some(last) = self.begun.last().copied() else {
                return;
            };
            match self.next_wait(last) {
                Some(before) => self.begin(before),
                None => self.end(last),
            }
        }
    }

    fn begin(&mut self, wanted: Happening) {
        let Some(point) = self.points.get_mut(place_of(wanted)) else {
            return;
        };
        match point.stage {
            OrderStage::Placed => {}
            OrderStage::Begun => self.fail(PlayFault::NoOrder),
            OrderStage::Open => {
                point.stage = OrderStage::Begun;
                if let Err(_) = self.begun.push(wanted) {
                    self.fail(PlayFault::Memory);
                }
            }
        }
    }

    // What is begun last is placed.
    fn end(&mut self, last: Happening) {
        let _ = self.begun.pop();
        if let Some(point) = self.points.get_mut(place_of(last)) {
            point.stage = OrderStage::Placed;
        }
        if let Err(_) = self.order.push(last) {
            self.fail(PlayFault::Memory);
        }
    }

    // What this waits for that wasn't looked at yet.
    fn next_wait(&mut self, wanted: Happening) -> Option<Happening> {
        let point = self.points.get_mut(place_of(wanted))?;
        let wait = *self.waits.get(point.wait?)?;
        point.wait = wait.next;
        Some(wait.before)
    }
}
