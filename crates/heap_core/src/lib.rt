//! The bottom of the word heap: its words, the one law behind them, the passes, the words that passes take, and what they do in turn.
#![tactic(auto)]

mod act;
mod closing;
mod deed;
mod ends;
mod heap;
mod holder;
mod leaves;
mod line;
mod locks;
mod mutexes;
mod names;
mod pass;
mod pause;
mod places;
mod plays;
mod prints;
mod room;
mod shapes;
mod starts;
mod take;
mod telling;
mod turn;
mod turns;

pub use act::Act;
pub use closing::{HeapFront, ShowHistory, Shown};
pub use deed::{Deed, owner_word};
pub use holder::{Known, Law, Made, Passes};
pub use leaves::{EndInTurn, LayResult, LayState, Leaving};
pub use line::Line;
pub use locks::{GiveLock, TryLock};
pub use mutexes::{LookOwner, SetOwner};
pub use names::NameAll;
pub use pass::{Heap, HeapPass};
pub use plays::{FixedLoad, Look, OwnLoad, OwnStore, StillLoad, TakeWords, Wanting};
pub use prints::{MakeInTurn, Making, RefuseInTurn, Refusing};
pub use shapes::{LookShape, MakeShape};
pub use starts::{Bearing, LookTable, StartInTurn};
pub use take::Take;
pub use telling::{Tells, Told};
pub use turn::Turn;
pub use turns::{GiveTurn, LaySlot, TakeSlot, TryTurn};
