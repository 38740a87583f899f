// The theorem on messages. Nothing is computed: the contract is what is proved.
ghost use Rattle.message.specs.Laws.{NoTwo};

pub fn message_laws()
    ensures { NoTwo }
{}
