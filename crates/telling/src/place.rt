// Where a cell of a term stands, which says what a number there counts: a junction, an arm.
use lists::up_to::UpTo;

#[derive(Clone, Copy)]
pub enum Place {
    // the whole row
    Row,
    Junction,
    Hour,
    Class,
    Turn,
    From,
    To,
    // of an opposite arm
    Arm,
    // anywhere else
    Value,
}

impl Place {
    // What stands there.
    pub fn noun(self) -> &'static str {
        match self {
            Place::Row => "row",
            Place::Junction => "junction",
            Place::Hour => "hour",
            Place::Class => "class",
            Place::Turn => "turn",
            Place::From | Place::To | Place::Arm => "arm",
            Place::Value => "value",
        }
    }

    // What a whole number says there.
    pub fn numbered(self) -> &'static str {
        match self {
            Place::Junction | Place::From | Place::To | Place::Arm => self.noun(),
            _ => "number",
        }
    }

    // How the sentence goes on to it.
    pub fn lead(self) -> &'static str {
        match self {
            Place::Row => "",
            Place::Junction => " at ",
            Place::Hour | Place::Class | Place::Turn => ", ",
            Place::From => " from ",
            Place::To => " to ",
            Place::Arm | Place::Value => " ",
        }
    }
}

// The places of a symbol's arguments in the model base, from the left.
fn arguments(symbol: u32) -> &'static [Place] {
    match symbol {
        1 => &[Place::Junction, Place::Hour, Place::Class, Place::Turn],
        2 => &[Place::From, Place::To],
        3 => &[Place::Arm],
        _ => &[],
    }
}

// The places still to come in a term that is read from the left, the next one last.
#[derive(Clone, Copy)]
pub struct Awaited {
    places: UpTo<Place, 32>,
}

impl Awaited {
    // A row.
    pub fn row() -> Awaited {
        let mut places = UpTo::new(Place::Value);
        places.push(Place::Row);
        Awaited { places }
    }

    // The next place; past the end of the term, anywhere.
    pub fn next(&mut self) -> Place {
        self.places.pop().unwrap_or(Place::Value)
    }

    // The arguments of a symbol of the model base come next; those past the 32nd place are not awaited.
    pub fn await_arguments(&mut self, symbol: u32) {
        // pushed one by one, while there is room
        for place in arguments(symbol).iter().rev() {
            if self.places.len() < 32 {
                self.places.push(*place);
            }
        }
    }
}
