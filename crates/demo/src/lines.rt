// The lines to check.
mod of_01;
mod of_02;

use crate::script::Script;
use crate::world::World;

// Plays them all in a fresh world, and answers it.
pub fn play(rt: &impl Print) -> World {
    let mut script = Script::new();
    for steps in [
        of_01::OF_HEAD,
        of_01::OF_BOX,
        of_01::OF_READING,
        of_01::OF_HOST,
        of_02::OF_TABLES,
        of_02::OF_STATUS,
        of_02::OF_STATUS_ALONE,
        of_02::OF_FULL_BOOK,
    ] {
        script.play(rt, steps);
    }
    script.world
}
