//! Laws of what is written.
ghost use Rattle.printed_texts.specs.TokenLaws.{DepthAloneRefuses, ShallowIsRead, TokensAreTheParts, TokensGoOn};

/// A text whose parts are apart has the tokens of its parts and no others.
pub fn tokens_are_the_parts()
    ensures { TokensAreTheParts }
{}

/// So it is anywhere in a text.
pub fn tokens_go_on()
    ensures { TokensGoOn }
{}

/// Nothing but depth refuses a text whose parts are apart.
pub fn depth_alone_refuses()
    ensures refuses { DepthAloneRefuses }
    ensures reads { ShallowIsRead }
{}
