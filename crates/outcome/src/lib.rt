// The numbers that every call leaves, refused or not.
#![tactic(auto)]

ghost use Rattle.std.specs.Prelude.{◌≡◌};

// Refusal number and place (0 for an accepted run), paths found, rounds started, messages sent: numbers, as C has them.
#[repr(C)]
#[derive(Clone, Copy)]
pub struct Outcome {
    pub refusal: usize,
    pub place: usize,
    pub paths: usize,
    pub rounds: usize,
    pub messages: usize,
}

impl Outcome {
    // What is left by a call that is refused: the refusal and its place, and nothing counted.
    pub fn refused(refusal: usize, place: usize) -> Outcome
        ensures { result ≡ record { refusal = refusal; place = place; paths = 0; rounds = 0; messages = 0 } }
    {
        Outcome {
            refusal,
            place,
            paths: 0,
            rounds: 0,
            messages: 0,
        }
    }
}
