//! Laws of headers, messages and streams.

ghost use Rattle.std.specs.Prelude.{◌≡◌, ◌↔◌, ◌<◌, ◌^◌, ℕ, List, [], ◌∷◌, ◌++◌, length, take, drop, slice_set, replicate, map, All, Option, Some, None, true, false};
ghost use Rattle.std.specs.List.{concat, range_with_len};
ghost use Rattle.dia_message.specs.declared.frames.FrameFault.{FrameFault};
ghost use Rattle.dia_message.specs.declared.frames.FrameFault.TheVariants.{Version, Length, TooLong};
ghost use Rattle.dia_message.specs.declared.header.Header.{Header};
ghost use Rattle.dia_message.specs.declared.message.Message.{Message};
ghost use Rattle.dia_message.specs.Header.{HasOctets, flags_of, header_in, header_octets, length_in, read_in, version_in, without_reserved};
ghost use Rattle.dia_message.specs.Spelling.{HasSpelling, Spells, octets_of};
ghost use Rattle.dia_message.specs.Stream.{IsStream, Stream, behind_messages, stream_of};
ghost use Rattle.dia_message.specs.Feeding.{fault_alone, given, only_message};
ghost use Rattle.dia_message.specs.MessageExample.{answer_message, answer_octets, answer_with, both, odd_beginning, request_header, request_header_octets, request_message, request_octets};

/// A written header is read back, and a header that was read is written as it stood, but for the
/// reserved flag bits.
pub fn one_header()
    ensures back { (header : Header) (size : ℕ) → HasOctets header → size < 2 ^ 24 → read_in (header_octets header size) ≡ record { header = header; version = 1; length = size } }
    ensures again { (octets : List ℕ) → length octets ≡ 20 → All (λ octet. octet < 256) octets → version_in octets ≡ 1 → header_octets (header_in octets) (length_in octets) ≡ without_reserved octets }
{}

/// Octets spell one message at most. Its written octets spell it, and are those that it was read
/// from, but for the reserved flag bits.
pub fn one_spelling()
    ensures only { (octets : List ℕ) (message : Message) → Spells octets message ↔ (only_message octets ≡ Some message) }
    ensures written { (message : Message) → HasSpelling message → Spells (octets_of message) message }
    ensures again { (octets : List ℕ) (message : Message) → All (λ octet. octet < 256) octets → Spells octets message → octets_of message ≡ without_reserved octets }
    ensures writable { (octets : List ℕ) (message : Message) → All (λ octet. octet < 256) octets → Spells octets message → HasSpelling message }
{}

/// Octets are one stream: spellings of messages, and a rest that holds no whole message.
pub fn one_stream()
    ensures { (octets : List ℕ) (stream : Stream) → IsStream octets stream ↔ (stream ≡ stream_of octets) }
{}

/// Octets that spell a message are read as that message, and then what stands behind them.
pub fn first_message()
    ensures spelled { (octets behind : List ℕ) (message : Message) → Spells octets message → stream_of (octets ++ behind) ≡ behind_messages (message ∷ []) (stream_of behind) }
    ensures written { (message : Message) (behind : List ℕ) → HasSpelling message → stream_of (octets_of message ++ behind) ≡ behind_messages (message ∷ []) (stream_of behind) }
{}

/// No cut matters: octets and more are the messages of the octets, and then those of their rest
/// with more. Behind a fault nothing is read. Pieces fed one after the other give the messages of
/// all of them together.
pub fn no_cut()
    ensures cut { (octets more : List ℕ) → stream_of (octets ++ more) ≡ behind_messages (stream_of octets).messages (stream_of ((stream_of octets).rest ++ more)) }
    ensures fault { (octets more : List ℕ) (fault : FrameFault) → (stream_of octets).fault ≡ Some fault → stream_of (octets ++ more) ≡ record { messages = (stream_of octets).messages; rest = (stream_of octets).rest ++ more; fault = Some fault } }
    ensures pieces { (pieces : List (List ℕ)) → given [] pieces ≡ (stream_of (concat pieces)).messages }
{}

/// Worked examples: the header of a request, with other flags too.
pub fn headers_spell_twenty_octets()
    ensures read { read_in request_header_octets ≡ record { header = request_header; version = 1; length = 248 } }
    ensures written { header_octets request_header 248 ≡ request_header_octets }
    // The reserved flag bits are read as anything: 207 is R, P and these.
    ensures reserved { read_in (slice_set request_header_octets 4 207) ≡ read_in request_header_octets }
    ensures error { header_in (slice_set request_header_octets 4 96) ≡ record request_header { request = false; error = true } }
    ensures resent { header_in (slice_set request_header_octets 4 208) ≡ record request_header { resent = true } }
    ensures flags { map flags_of (request_header ∷ record request_header { request = false; error = true } ∷ record request_header { resent = true } ∷ []) ≡ 192 ∷ 96 ∷ 208 ∷ [] }
{}

/// Worked examples: octets that are one message, and octets that are none: one octet more, one less, two messages and a
/// beginning, and no octets.
pub fn octets_are_one_whole_message()
    ensures one { map only_message (request_octets ∷ answer_octets ∷ []) ≡ Some request_message ∷ Some answer_message ∷ [] }
    ensures written { map octets_of (request_message ∷ answer_message ∷ []) ≡ request_octets ∷ answer_octets ∷ [] }
    ensures none { map only_message ((request_octets ++ 1 ∷ []) ∷ take 247 request_octets ∷ both ∷ [] ∷ []) ≡ None ∷ None ∷ None ∷ None ∷ [] }
{}

/// Worked examples: a stream of two messages and a fault.
pub fn streams_give_their_whole_messages()
    ensures both { stream_of both ≡ record { messages = request_message ∷ answer_message ∷ []; rest = odd_beginning; fault = Some Length } }
    // In two pieces, wherever it is cut; and each octet alone.
    ensures cut { map (λ cut. given [] (take cut both ∷ drop cut both ∷ [])) (range_with_len 0 433) ≡ replicate 433 (request_message ∷ answer_message ∷ []) }
    ensures octets { given [] (map (λ octet. octet ∷ []) both) ≡ request_message ∷ answer_message ∷ [] }
{}

/// Worked examples: the fault of a stream without a whole message. Four octets show it, or one.
pub fn stream_faults_are_seen_early()
    ensures version { map (λ octets. fault_alone (stream_of octets)) ((2 ∷ []) ∷ (0 ∷ []) ∷ (1 ∷ []) ∷ []) ≡ Some Version ∷ Some Version ∷ None ∷ [] }
    ensures length { map (λ octets. fault_alone (stream_of octets)) ((1 ∷ 0 ∷ 0 ∷ []) ∷ (1 ∷ 0 ∷ 0 ∷ 16 ∷ []) ∷ (1 ∷ 0 ∷ 0 ∷ 20 ∷ []) ∷ odd_beginning ∷ []) ≡ None ∷ Some Length ∷ None ∷ Some Length ∷ [] }
    // 65,540 octets, 262,144 and 262,148 of them.
    ensures too_long { map (λ octets. fault_alone (stream_of octets)) ((1 ∷ 1 ∷ 0 ∷ 4 ∷ []) ∷ (1 ∷ 4 ∷ 0 ∷ 0 ∷ []) ∷ (1 ∷ 4 ∷ 0 ∷ 4 ∷ []) ∷ []) ≡ None ∷ None ∷ Some TooLong ∷ [] }
{}

/// A message of 262,144 octets is read back whole, and one of 262,148 octets is a fault.
pub fn messages_end_at_their_limit()
    ensures longest { (body : List ℕ) → length body ≡ 262124 → only_message (octets_of (answer_with body)) ≡ Some (answer_with body) }
    ensures too_long { (body : List ℕ) → length body ≡ 262128 → fault_alone (stream_of (octets_of (answer_with body))) ≡ Some TooLong }
{}
