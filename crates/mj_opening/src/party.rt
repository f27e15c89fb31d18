/// With whom the broker speaks in a message.
#[derive(Clone, Copy)]
pub enum Party {
    /// Majordomo/Client: `MDPC01`, `MDPC02`.
    Clients,
    /// Majordomo/Worker: `MDPW01`, `MDPW02`.
    Workers,
}
