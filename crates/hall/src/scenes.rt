// What is posted in the example, and in which order.
use crate::words::{AIRPORT, CHUTE, HANDLER, HOLD, OTHER_CHUTE, PLAN};

// A value that a party gives an input.
#[derive(Clone, Copy, Debug, PartialEq, Eq)]
pub struct Post {
    pub party: u8,
    pub place: u8,
    pub value: u32,
}

// Posts, and a cycle after them.
#[derive(Clone, Copy)]
pub struct Scene {
    pub title: &'static str,
    pub posts: [Post; 2],
}

pub const SCENES: [Scene; 5] = [
    Scene {
        title: "1. The airline's rule copies the handler's chute.",
        posts: [
            Post {
                party: HANDLER,
                place: OTHER_CHUTE,
                value: 9,
            },
            Post {
                party: AIRPORT,
                place: PLAN,
                value: 1,
            },
        ],
    },
    Scene {
        title: "2. The same rule copies the airline's own chute, which the handler tries to set.",
        posts: [
            Post {
                party: HANDLER,
                place: CHUTE,
                value: 9,
            },
            Post {
                party: AIRPORT,
                place: PLAN,
                value: 2,
            },
        ],
    },
    Scene {
        title: "3. A rule of the airline asks first whether the handler holds, which it does not.",
        posts: [
            Post {
                party: HANDLER,
                place: HOLD,
                value: 0,
            },
            Post {
                party: AIRPORT,
                place: PLAN,
                value: 3,
            },
        ],
    },
    Scene {
        title: "4. The same, and the handler holds.",
        posts: [
            Post {
                party: HANDLER,
                place: HOLD,
                value: 1,
            },
            Post {
                party: AIRPORT,
                place: PLAN,
                value: 3,
            },
        ],
    },
    Scene {
        title: "5. The airline's own chute again, whatever the handler has posted.",
        posts: [
            Post {
                party: HANDLER,
                place: OTHER_CHUTE,
                value: 2,
            },
            Post {
                party: AIRPORT,
                place: PLAN,
                value: 2,
            },
        ],
    },
];
