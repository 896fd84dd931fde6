ghost use Rattle.std.specs.Prelude.{◌≡◌, ℕ, List, [], ◌++◌, None, Some};
ghost use Rattle.wire.specs.declared.message.Kind.{Kind};
ghost use Rattle.wire.specs.Messages.{IsMessage};
ghost use Rattle.wire.specs.Grammar.{Spells, spelling};
ghost use Rattle.wire.specs.Decoding.{message_at};
ghost use Rattle.wire.specs.declared.notice.Notice.{Notice};
ghost use Rattle.wire.specs.Notices.{SpellsNotice, notice_at};
ghost use Rattle.xid.specs.Names.{IsBytes};

/// The laws of the grammar, which the check proves: no message's spelling begins another's, a message has one spelling, and a
/// spelling has one message. Calling it does nothing.
pub fn spelling_laws()
    ensures begins_none { (k m : Kind) (rest : List ℕ) → IsMessage k → IsMessage m → spelling k ++ rest ≡ spelling m
        → (k ≡ m) × (rest ≡ []) }
    ensures one_spelling { (k : Kind) (xs ys : List ℕ) → Spells k xs → Spells k ys → xs ≡ ys }
    ensures one_message { (k m : Kind) (bytes : List ℕ) → Spells k bytes → Spells m bytes → k ≡ m }
{}

/// The message that bytes spell is found by computing: exactly where they spell one. Calling it does nothing.
pub fn message_at_is_exact()
    ensures found { (k : Kind) (bytes : List ℕ) → Spells k bytes → message_at bytes ≡ Some k }
    ensures spelled { (k : Kind) (bytes : List ℕ) → message_at bytes ≡ Some k → Spells k bytes }
{}

/// The notice that bytes spell is found by computing: exactly where they spell one. Calling it does nothing.
pub fn notice_at_is_exact()
    ensures found { (notice : Notice) (bytes : List ℕ) → SpellsNotice notice bytes → notice_at bytes ≡ Some notice }
    ensures spelled { (notice : Notice) (bytes : List ℕ) → IsBytes bytes → notice_at bytes ≡ Some notice → SpellsNotice notice bytes }
{}

/// No bytes are both a notice and a message. Calling it does nothing.
pub fn notices_are_no_messages()
    ensures { (notice : Notice) (bytes : List ℕ) → notice_at bytes ≡ Some notice → message_at bytes ≡ None }
{}
