//! The rows of the filling line, as its engineer enters them.
use model::Figures;

/// A row of the engineer's list: a task's name and its figures.
#[derive(Clone, Copy)]
pub struct Row {
    pub name: &'static str,
    pub figures: Figures,
}

impl Row {
    fn new(name: &'static str, execution: u16, suspension: u16, deadline: u16, period: u16) -> Row {
        let figures = Figures {
            execution,
            suspension,
            deadline,
            period,
        };
        Row { name, figures }
    }
}

/// All rows in the order of entering, the two mistyped ones too.
pub fn rows() -> [Row; 10] {
    [
        Row::new("safety chain", 1, 0, 10, 10),
        Row::new("conveyor", 2, 0, 25, 25),
        Row::new("filling valves", 4, 12, 50, 50),
        Row::new("capper", 3, 10, 60, 60),
        Row::new("cap camera", 0, 20, 60, 60),
        Row::new("cap camera", 6, 20, 60, 60),
        Row::new("reject gate", 2, 0, 60, 60),
        Row::new("labeller", 5, 15, 120, 100),
        Row::new("labeller", 5, 15, 100, 100),
        Row::new("logging", 10, 40, 500, 500),
    ]
}

/// The rows of the bench where bottles with loose caps are capped again.
pub fn rework_rows() -> [Row; 2] {
    [
        Row::new("cap camera", 6, 20, 60, 60),
        Row::new("capper", 3, 10, 60, 60),
    ]
}
