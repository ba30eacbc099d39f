/// What an error in the reply to a command of the setup is about.
#[derive(Clone, Copy, Debug, PartialEq, Eq)]
pub enum Meaning {
    /// Authentication with a user name.
    User,
    /// Authentication without a user name.
    Password,
    /// What the connection can't do without.
    Choice,
    /// What the connection can do without.
    Library,
}
