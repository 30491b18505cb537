// A binding forwards orders from one place to another under a set of settings.
#[derive(Clone, Copy, Debug, PartialEq, Eq)]
pub struct Binding<S> {
    pub from: u16,
    pub to: u16,
    pub set: S,
}
