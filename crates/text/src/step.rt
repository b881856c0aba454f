// What one byte of a line does.

#[derive(Clone, Copy)]
pub enum Step<T> {
    // The line goes on, with this item begun or with none.
    Onward(Option<T>),
    // It completes this item, or stands behind it.
    Whole(T),
    // It cannot stand here.
    Stuck,
}
