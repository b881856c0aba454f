// The calls by their names.
ghost use Rattle.std.specs.Prelude.{◌≡◌, IfSome, Some};
ghost use Rattle.replay.specs.Named.{call_name};

#[derive(Clone, Copy)]
pub enum Call {
    Start,
    Feed,
    Tick,
    Take,
    Peek,
}

impl Call {
    // The call of a name.
    pub fn named(name: &[u8]) -> Option<Call>
        ensures known { (call : Call) → name.now ≡ call_name call → result ≡ Some call }
        ensures others { IfSome result (λ call. name.now ≡ call_name call) }
    {
        match name {
            b"start" => Some(Call::Start),
            b"feed" => Some(Call::Feed),
            b"tick" => Some(Call::Tick),
            b"take" => Some(Call::Take),
            b"peek" => Some(Call::Peek),
            _ => None,
        }
    }
}
