ghost use Rattle.std.specs.Prelude.{◌≡◌, Some};
ghost use Rattle.resp_write.specs.Subscription.{is_word, action_word, subscription_action};

/// What the six subscription commands do.
#[derive(Clone, Copy)]
pub enum SubscriptionAction {
    Subscribe,
    Unsubscribe,
    PSubscribe,
    PUnsubscribe,
    SSubscribe,
    Sunsubscribe,
}

/// Whether the name is this word, without regard to ASCII case.
#[tactic(auto, unfolding(crate::specs::Subscription::is_word))]
fn is_the_word(name: &[u8], word: &[u8]) -> bool
    ensures { result ≡ is_word name.now word.now }
{
    name.eq_ignore_ascii_case(word)
}

impl SubscriptionAction {
    /// What a command of this name does, if it is one of the six, whose names are read without regard to ASCII case.
    #[tactic(auto, unfolding(crate::specs::Subscription::subscription_action))]
    pub fn from_name(name: &[u8]) -> Option<SubscriptionAction>
        ensures { result ≡ subscription_action name.now }
    {
        if is_the_word(name, b"SUBSCRIBE") {
            return Some(SubscriptionAction::Subscribe);
        }
        if is_the_word(name, b"UNSUBSCRIBE") {
            return Some(SubscriptionAction::Unsubscribe);
        }
        if is_the_word(name, b"PSUBSCRIBE") {
            return Some(SubscriptionAction::PSubscribe);
        }
        if is_the_word(name, b"PUNSUBSCRIBE") {
            return Some(SubscriptionAction::PUnsubscribe);
        }
        if is_the_word(name, b"SSUBSCRIBE") {
            return Some(SubscriptionAction::SSubscribe);
        }
        if is_the_word(name, b"SUNSUBSCRIBE") {
            return Some(SubscriptionAction::Sunsubscribe);
        }
        None
    }

    /// The name of the command that does it.
    fn capitals(self) -> &'static [u8]
        ensures { result.now ≡ action_word self }
    {
        match self {
            SubscriptionAction::Subscribe => b"SUBSCRIBE",
            SubscriptionAction::Unsubscribe => b"UNSUBSCRIBE",
            SubscriptionAction::PSubscribe => b"PSUBSCRIBE",
            SubscriptionAction::PUnsubscribe => b"PUNSUBSCRIBE",
            SubscriptionAction::SSubscribe => b"SSUBSCRIBE",
            SubscriptionAction::Sunsubscribe => b"SUNSUBSCRIBE",
        }
    }

    /// The name of the command that does it, in capitals.
    pub fn word(self) -> &'static [u8]
        ensures word { result.now ≡ action_word self }
        ensures read { subscription_action result.now ≡ Some self }
    {
        self.capitals()
    }
}
