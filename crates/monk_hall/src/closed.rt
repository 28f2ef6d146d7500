use monk_history::Event;

/// What is left of a hall that has ended: its object, and the whole history, which is legal.
#[derive(Drop)]
pub struct Closed<T> {
    pub object: T,
    pub history: Vec<Event>,
}
