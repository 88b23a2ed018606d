//! The filters that encode, and those that make digests.
ghost use Rattle.std.specs.Prelude.{◌≤◌, length, map};
ghost use Rattle.liquid_model.specs.Answer.{Answers, IsValueOrMemory};
ghost use Rattle.liquid_model.specs.View.{view};
ghost use Rattle.liquid_shopify_host_filters.specs.Codecs.{code_by, decode_answer, decoded_text};
ghost use Rattle.liquid_shopify_host_filters.specs.Codecs.{masked_digest, encode_answer, hmac};
ghost use Rattle.liquid_shopify_host_filters.specs.Codecs.{hmac_sha256_answer, json_answer};
ghost use Rattle.liquid_shopify_host_filters.specs.Codecs.{md5_answer, sha1_answer, sha256_answer};

use base64::DecodeAllocError;
use base64::engine::general_purpose::STANDARD;
use liquid_filters::text_or;
use liquid_json::json_for_scripts;
use liquid_model::{Error, ErrorKind, Result, Value, text_of};
use md5::Md5;
use sha1::Sha1;
use sha2::{Digest, Sha256};
use std::alloc::{AllocError, Global};

/// `base64_encode`: the input's text in base64, with padding.
pub(crate) fn encode_answer(alloc: Global, input: &Value) -> Result<Value>
    ensures { Answers view result (encode_answer (view input.now)) }
{
    let text = text_of(alloc, input)?;
    Ok(Value::Text(STANDARD.encode(alloc, text.as_str().as_bytes())?))
}

/// `base64_decode`: the text that the input's text encodes. `InvalidInput` where it encodes no
/// bytes, or none of a text.
pub(crate) fn decode_answer(alloc: Global, input: &Value) -> Result<Value>
    ensures { Answers view result (decode_answer (view input.now)) }
{
    let text = text_of(alloc, input)?;
    match STANDARD.decode(alloc, text.as_str().as_bytes()) {
        Ok(bytes) => decoded_text(alloc, bytes),
        Err(DecodeAllocError::OutOfMemory) => Err(Error::from(AllocError)),
        Err(DecodeAllocError::DecodeError(_)) => Err(Error::new(
            alloc,
            ErrorKind::InvalidInput,
            "the input must be a text in base64 with its padding",
        )),
    }
}

/// The text that the bytes are, if they are UTF-8.
fn decoded_text(alloc: Global, bytes: Vec<u8>) -> Result<Value>
    ensures { Answers view result (decoded_text bytes.items) }
{
    match String::from_utf8(bytes) {
        Ok(text) => Ok(Value::Text(text)),
        Err(_) => Err(Error::new(
            alloc,
            ErrorKind::InvalidInput,
            "the bytes that the input encodes are no text",
        )),
    }
}

/// `json`: the input as JSON, with nothing between its tokens; the keys of a map stand in the order
/// of their bytes. `\u003c`, `\u003e` and `\u0026` stand for `<`, `>` and `&`.
pub(crate) fn json_answer(alloc: Global, input: &Value) -> Result<Value>
    ensures { Answers view result (json_answer (view input.now)) }
{
    Ok(Value::Text(json_for_scripts(alloc, input)?))
}

/// `md5`: the digest of the input's text in hexadecimal.
pub(crate) fn md5_answer(alloc: Global, input: &Value) -> Result<Value>
    ensures { Answers view result (md5_answer (view input.now)) }
{
    let text = text_of(alloc, input)?;
    let digest = <Md5 as md5::Digest>::digest(text.as_str().as_bytes());
    Ok(Value::Text(hex::encode(alloc, digest)?))
}

/// `sha1`: the digest of the input's text in hexadecimal.
pub(crate) fn sha1_answer(alloc: Global, input: &Value) -> Result<Value>
    ensures { Answers view result (sha1_answer (view input.now)) }
{
    let text = text_of(alloc, input)?;
    Ok(Value::Text(hex::encode(alloc, Sha1::digest(text.as_str().as_bytes()))?))
}

/// `sha256`: the digest of the input's text in hexadecimal.
pub(crate) fn sha256_answer(alloc: Global, input: &Value) -> Result<Value>
    ensures { Answers view result (sha256_answer (view input.now)) }
{
    let text = text_of(alloc, input)?;
    let digest = Sha256::digest(text.as_str().as_bytes());
    Ok(Value::Text(hex::encode(alloc, digest)?))
}

/// `hmac_sha256`: the code of the input's text under the argument's text as its key, in
/// hexadecimal.
pub(crate) fn hmac_sha256_answer(alloc: Global, input: &Value, args: &[Value]) -> Result<Value>
    ensures { Answers view result (hmac_sha256_answer (view input.now) (map view args.now)) }
{
    let text = text_of(alloc, input)?;
    let key = text_or(alloc, args, 0, "")?;
    let code = hmac(alloc, key.as_str().as_bytes(), text.as_str().as_bytes())?;
    Ok(Value::Text(hex::encode(alloc, code)?))
}

/// The code of RFC 2104 over SHA-256, whose blocks have 64 bytes. A longer key counts by its
/// digest.
fn hmac(alloc: Global, key: &[u8], message: &[u8]) -> Result<[u8; 32]>
    ensures { IsValueOrMemory (λ d. d) result (hmac key.now message.now) }
{
    if key.len() > 64 {
        return code_by(alloc, &Sha256::digest(key), message);
    }
    code_by(alloc, key, message)
}

/// The code under a key of one block at most.
fn code_by(alloc: Global, key: &[u8], message: &[u8]) -> Result<[u8; 32]>
    requires { length key.now ≤ 64 }
    ensures { IsValueOrMemory (λ d. d) result (code_by key.now message.now) }
{
    let inner = masked_digest(alloc, key, 0x36, message)?;
    masked_digest(alloc, key, 0x5c, &inner)
}

/// The digest of a message after the key's block, whose bytes are masked.
fn masked_digest(alloc: Global, key: &[u8], mask: u8, message: &[u8]) -> Result<[u8; 32]>
    requires { length key.now ≤ 64 }
    ensures { IsValueOrMemory (λ d. d) result (masked_digest key.now mask message.now) }
{
    let masked: Vec<u8> = key.iter().map(|byte| *byte ^ mask).collect(alloc)?;
    let mut hasher = Sha256::new();
    hasher.update(masked.as_slice());
    hasher.update(&[mask; 64][key.len()..]);
    hasher.update(message);
    Ok(hasher.finalize())
}
