//! What follows from the definitions. The functions do nothing: their clauses are for proofs.
ghost use Rattle.std.specs.Prelude.{◌≡◌, ◌↔◌, ℕ, List, Err, IfErr, Ok, Some, false};
ghost use Rattle.std.specs.List.{list_any};
ghost use Rattle.http_bodies.specs.Bodies.{BodyState, frames_of};
ghost use Rattle.http_bodies.specs.Frames.{all_data};
ghost use Rattle.body_reading.specs.Streams.{fresh_stream};
ghost use Rattle.schema_values.specs.declared.json_value.Json.{Json as JsonValue};
ghost use Rattle.schema_values.specs.Reading.{Reads};
ghost use Rattle.request_words.specs.declared.request.WireRequest.{WireRequest as Sent};
ghost use Rattle.request_parts.specs.Requests.{Request};
ghost use Rattle.request_parts.specs.Wire.{wire_of};
ghost use Rattle.typed_values.specs.Checks.{TablePasses};
ghost use Rattle.descriptors.specs.declared.desc.Desc.{Desc as Descriptor};
ghost use Rattle.descriptors.specs.declared.table.Definition.{Definition as Entry};
ghost use Rattle.descriptors.specs.declared.tree.Tree.{Tree as Value};
ghost use Rattle.handler_shapes.specs.declared.arguments.Arg.{Arg as Argument};
ghost use Rattle.handler_shapes.specs.declared.slot.Slot.{Slot as Taken};
ghost use Rattle.handler_shapes.specs.Arguments.{ArgsFit};
ghost use Rattle.handler_shapes.specs.BodySlots.{BodyComesLast};
ghost use Rattle.handler_shapes.specs.ShapeChecks.{SlotsPass};
ghost use Rattle.page_tokens.specs.Forms.{v1};
ghost use Rattle.page_tokens.specs.Tokens.{IsTokenRefused, TokenReads};
ghost use Rattle.page_tokens.specs.declared.token_error.TokenError.{TokenError as Flaw};
ghost use Rattle.api_extract.specs.declared.extract_error.ExtractError.{ExtractError as Extract};
ghost use Rattle.api_extract.specs.Causes.{HasAnswerCause};
ghost use Rattle.api_extract.specs.Cuts.{AreCutsOfOne, with_streams};
ghost use Rattle.api_extract.specs.Denotes.{Denotes, GivenArgs, Terms, args_told};
ghost use Rattle.api_extract.specs.Extraction.{HasSizeCause, IsWithin, extracted, slot_extracted};
ghost use Rattle.api_extract.specs.Extraction.{takes_stream};
ghost use Rattle.api_extract.specs.PageQueries.{IsTokenFault, bytes_told};
ghost use Rattle.api_extract.specs.Readings.{value_read};

/// The arguments that a request denotes are of the slots.
pub fn denoted_arguments_fit()
    ensures { (terms : Terms) (slots : List Taken) (request : Sent) (body : BodyState)
        (args : List Argument) → TablePasses terms.table → SlotsPass terms.table slots
        → Denotes terms slots request body args → ArgsFit terms.table slots args }
{}

/// A request whose body is within the budget of frames and the limit gives what it denotes, or its
/// refusal.
pub fn requests_within_limits_are_read()
    ensures { (terms : Terms) (slots : List Taken) (request : Request) (body : BodyState)
        → IsWithin terms body → extracted terms slots request body
        ≡ args_told terms slots (wire_of request (all_data (frames_of body))) body }
{}

/// Two bodies of the same content within the budget of frames and the limit give the same, however
/// they are cut into frames, but for a stream, which is the body as it stands.
pub fn cuts_give_the_same()
    // A slot that takes no stream is given the same, whatever the other slots take.
    ensures each { (terms : Terms) (request : Request) (one other : BodyState) (slot : Taken)
        → AreCutsOfOne terms one other → takes_stream slot ≡ false
        → slot_extracted terms request one slot ≡ slot_extracted terms request other slot }

    // All slots are given the same, with the stream of the other body in the place of that of the
    // one.
    ensures all { (terms : Terms) (slots : List Taken) (request : Request) (one other : BodyState)
        → AreCutsOfOne terms one other → extracted terms slots request other
        ≡ with_streams (fresh_stream other terms.limit terms.budget)
        (extracted terms slots request one) }

    // What refuses the one refuses the other.
    ensures refused { (terms : Terms) (slots : List Taken) (request : Request)
        (one other : BodyState) (error : Extract) → AreCutsOfOne terms one other
        → extracted terms slots request one ≡ Err error
        → extracted terms slots request other ≡ Err error }

    // Where no slot takes a stream, they are given the same.
    ensures unstreamed { (terms : Terms) (slots : List Taken) (request : Request)
        (one other : BodyState) → AreCutsOfOne terms one other
        → list_any takes_stream slots ≡ false
        → extracted terms slots request one ≡ extracted terms slots request other }
{}

/// What comes of a request and the frames of its body, where the slot that takes the body is the
/// last one, is the one answer that has its cause in them.
pub fn answers_have_causes()
    ensures { (terms : Terms) (slots : List Taken) (request : Request) (body : BodyState)
        (given : GivenArgs) → BodyComesLast slots
        → (given ≡ extracted terms slots request body)
        ↔ HasAnswerCause terms slots request body given }
{}

/// In whatever order the slots stand, an error that tells the size of a body, or the number of its
/// frames, has its cause in the frames of the body.
pub fn sizes_have_causes()
    ensures { (terms : Terms) (slots : List Taken) (request : Request) (body : BodyState)
        → IfErr (extracted terms slots request body)
        (HasSizeCause terms.limit terms.budget (frames_of body)) }
{}

/// The value that bytes read as is the one that they are read as by `Reads`.
pub fn values_are_read()
    ensures { (bytes : List ℕ) (json : JsonValue)
        → (value_read bytes ≡ Some json) ↔ Reads bytes json }
{}

/// The tree that the bytes of a token denote is the one that the token reads as.
pub fn tokens_are_read()
    ensures { (table : List Entry) (selector : Descriptor) (token : List ℕ) (tree : Value)
        → (bytes_told table selector token ≡ Ok tree)
        ↔ TokenReads v1 table selector token tree }
{}

/// The bytes of a token that is refused are told as the fault that its error names.
pub fn refused_tokens_are_told()
    ensures { (table : List Entry) (selector : Descriptor) (token : List ℕ) (error : Flaw)
        → IsTokenRefused v1 table selector token error
        → IsTokenFault error (bytes_told table selector token) }
{}
