//! The filter of Shopify's block `form`.
ghost use Rattle.std.specs.Prelude.{◌≡◌, ◌≤◌, length, map, option_map, string_bytes};
ghost use Rattle.liquid_model.specs.Answer.{Answers, IsValueOrMemory};
ghost use Rattle.liquid_model.specs.ErrorKinds.{IsKindOrMemory};
ghost use Rattle.liquid_model.specs.View.{view};
ghost use Rattle.liquid_model.specs.declared.error.ErrorKind.TheVariants.{InvalidArgument};
ghost use Rattle.liquid_shopify_host_filters.specs.Forms.{comment_element, comment_form};
ghost use Rattle.liquid_shopify_host_filters.specs.Forms.{form_answer, form_element, shop_form};
ghost use Rattle.liquid_shopify_host_filters.specs.Forms.{form_parts, bare_form, plain_parts};
ghost use Rattle.liquid_shopify_host_filters.specs.Forms.{product_element, product_form};
ghost use Rattle.liquid_shopify_host_filters.specs.Forms.{subject_member};

use liquid_filters::property;
use liquid_model::{Error, ErrorKind, Quoted, Result, Value, text_of};
use std::alloc::Global;

/// Where a form goes, and its attributes before and after those that all forms have.
#[derive(Clone, Copy, Drop)]
struct FormParts<'p> {
    action: &'p str,
    id: &'p str,
    class: &'p str,
}

/// `form`: the input's text in the element that Shopify writes around a form of the first
/// argument's kind. A `product` is for the second argument by its `id`, and a `new_comment` by its
/// `url`. `InvalidArgument` where that is missing, and where the form is of another kind than
/// `plain_parts` has.
pub(crate) fn form_answer(alloc: Global, input: &Value, args: &[Value]) -> Result<Value>
    requires { 1 ≤ length args.now }
    ensures { Answers view result (form_answer (view input.now) (map view args.now)) }
{
    let kind = text_of(alloc, &args[0])?;
    let body = text_of(alloc, input)?;
    shop_form(alloc, kind.as_str(), body.as_str(), args.get(1))
}

/// The form of a kind, for what it is for.
fn shop_form(alloc: Global, kind: &str, body: &str, subject: Option<&Value>) -> Result<Value>
    ensures { Answers view result (shop_form kind.now body.now
        (option_map (λ v. view v.now) subject.entry)) }
{
    match kind {
        "product" => product_form(alloc, body, member(subject, "id")),
        "new_comment" => comment_form(alloc, body, member(subject, "url")),
        _ => bare_form(alloc, kind, body),
    }
}

/// A member of what a form is for, where that is a map which has it.
fn member<'a>(subject: Option<&'a Value>, name: &str) -> Option<&'a Value>
    ensures { option_map (λ v. view v.now) result ≡
        subject_member name.now (option_map (λ v. view v.now) subject.entry) }
{
    match subject {
        Some(subject) => property(subject, name),
        None => None,
    }
}

/// The form of a product with the number.
fn product_form(alloc: Global, body: &str, id: Option<&Value>) -> Result<Value>
    ensures { Answers view result (product_form body.now
        (option_map (λ v. view v.now) id.entry)) }
{
    let Some(id) = id else {
        return Err(without_subject(alloc, "`product` needs a product with an `id`"));
    };
    let id = text_of(alloc, id)?;
    Ok(Value::Text(product_element(alloc, body, id.as_str())?))
}

fn product_element(alloc: Global, body: &str, id: &str) -> Result<String>
    ensures { IsValueOrMemory (λ s. string_bytes s) result (product_element body.now id.now) }
{
    let marked = format!(in alloc; " id=\"product_form_{id}\"")?;
    let body = format!(in alloc;
        "{body}<input type=\"hidden\" name=\"product-id\" value=\"{id}\" />"
    )?;
    let parts = FormParts {
        action: "/cart/add",
        id: marked.as_str(),
        class: " class=\"shopify-product-form\" enctype=\"multipart/form-data\"",
    };
    form_element(alloc, "product", parts, body.as_str())
}

/// The form of a comment on the article with the address.
fn comment_form(alloc: Global, body: &str, url: Option<&Value>) -> Result<Value>
    ensures { Answers view result (comment_form body.now
        (option_map (λ v. view v.now) url.entry)) }
{
    let Some(url) = url else {
        return Err(without_subject(alloc, "`new_comment` needs an article with a `url`"));
    };
    let url = text_of(alloc, url)?;
    Ok(Value::Text(comment_element(alloc, body, url.as_str())?))
}

fn comment_element(alloc: Global, body: &str, url: &str) -> Result<String>
    ensures { IsValueOrMemory (λ s. string_bytes s) result (comment_element body.now url.now) }
{
    let action = format!(in alloc; "{url}/comments#comment_form")?;
    let parts = FormParts {
        action: action.as_str(),
        id: " id=\"comment_form\"",
        class: " class=\"comment-form\"",
    };
    form_element(alloc, "new_comment", parts, body)
}

/// The fault of a form that lacks what it is for.
fn without_subject(alloc: Global, message: &str) -> Error
    ensures { IsKindOrMemory InvalidArgument result.kind }
{
    Error::new(alloc, ErrorKind::InvalidArgument, message)
}

/// The form of a kind that is for nothing.
fn bare_form(alloc: Global, kind: &str, body: &str) -> Result<Value>
    ensures { Answers view result (bare_form kind.now body.now (plain_parts kind.now)) }
{
    let Some(parts) = plain_parts(kind) else {
        return Err(Error::formatted(
            alloc,
            ErrorKind::InvalidArgument,
            format_args!(
                "a form `{}` isn't known; write the `<form>` and its hidden inputs instead",
                Quoted { text: kind }
            ),
        ));
    };
    Ok(Value::Text(form_element(alloc, kind, parts, body)?))
}

/// Of a kind that is for nothing: where its form goes, and its attributes.
fn plain_parts(kind: &str) -> Option<FormParts<'static>>
    ensures { option_map (λ p. form_parts p.action.now p.id.now p.class.now) result ≡
        plain_parts kind.now }
{
    let (action, id, class) = match kind {
        "cart" => (
            "/cart",
            " id=\"cart_form\"",
            " class=\"shopify-cart-form\" enctype=\"multipart/form-data\"",
        ),
        "contact" | "customer" => (
            "/contact#contact_form",
            " id=\"contact_form\"",
            " class=\"contact-form\"",
        ),
        "create_customer" => (
            "/account",
            " id=\"create_customer\"",
            " data-login-with-shop-sign-up=\"true\"",
        ),
        "customer_login" => (
            "/account/login",
            " id=\"customer_login\"",
            " data-login-with-shop-sign-in=\"true\"",
        ),
        "recover_customer_password" => ("/account/recover", "", ""),
        "storefront_password" => (
            "/password",
            " id=\"login_form\"",
            " class=\"storefront-password-form\"",
        ),
        _ => return None,
    };
    Some(FormParts { action, id, class })
}

/// A form of a kind, with what stands in it.
fn form_element(alloc: Global, kind: &str, parts: FormParts<'_>, body: &str) -> Result<String>
    ensures { IsValueOrMemory (λ s. string_bytes s) result (form_element kind.now
        (form_parts parts.entry.action.now parts.entry.id.now parts.entry.class.now) body.now) }
{
    let action = parts.action;
    let id = parts.id;
    let class = parts.class;
    Ok(format!(in alloc;
        "<form method=\"post\" action=\"{action}\"{id} accept-charset=\"UTF-8\"{class}>\
        <input type=\"hidden\" name=\"form_type\" value=\"{kind}\" />\
        <input type=\"hidden\" name=\"utf8\" value=\"✓\" />{body}</form>"
    )?)
}
