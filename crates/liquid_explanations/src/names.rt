//! Names of tags and filters of other languages, and what to write here.

/// The name of a tag, and what the message says of it.
static TAGS: &str = "\
elseif: `elseif` is written `elsif`
elif: `elif` is written `elsif`
else_if: `else_if` is written `elsif`
liquid: `liquid` isn't known; each of its lines is written as a tag
echo: `echo a` is written `{{ a }}`
print: `print a` is written `{{ a }}`
set: `set` is written `assign`
let: `let` is written `assign`
var: `var` is written `assign`
const: `const` is written `assign`
empty: `empty` is written `else`
switch: `switch` is written `case`
default: `default` is written `else`
foreach: `foreach` is written `for`
each: `each` is written `for`
while: `while` isn't known; a `for` goes over a list or a range, and `break` ends it
verbatim: `verbatim` is written `raw`
literal: `literal` is written `raw`
filter: `filter` isn't known; `capture` the text, and show it with the filter
with: `with` isn't known; `assign` sets a name
autoescape: `autoescape` isn't known; `| escape` escapes a value, and `--escape html` all
spaceless: `spaceless` isn't known; `{%-` and `-%}` strip white space
extends: `extends` isn't known; `{% render 'name' %}` takes in a partial
layout: `layout` isn't known; `{% render 'name' %}` takes in a partial
block: `block` isn't known; `capture` keeps a text, and a partial can show it
macro: `macro` isn't known; `{% render 'name' a: 1 %}` takes in a partial
function: `function` isn't known; `{% render 'name' a: 1 %}` takes in a partial
def: `def` isn't known; `{% render 'name' a: 1 %}` takes in a partial
mixin: `mixin` isn't known; `{% render 'name' a: 1 %}` takes in a partial
call: `call` isn't known; `{% render 'name' a: 1 %}` takes in a partial
import: `import` isn't known; `{% render 'name' %}` takes in a partial
from: `from` isn't known; `{% render 'name' %}` takes in a partial
embed: `embed` isn't known; `{% render 'name' %}` takes in a partial
partial: `partial` is written `render`
include_relative: `include_relative` is written `include`
include_cached: `include_cached` is written `include`
paginate: `paginate` isn't known; a `for` with `limit` and `offset` shows a part of a list
form: `form` is of Shopify's themes, and isn't known; write the `<form>` itself
section: `section` is of Shopify's themes, and isn't known; `render` takes in a partial
sections: `sections` is of Shopify's themes, and isn't known; `render` takes in a partial
schema: `schema` is of Shopify's themes, and isn't known; let the data bring the settings
style: `style` is of Shopify's themes, and isn't known; write the `<style>` itself
stylesheet: `stylesheet` is of Shopify's themes, and isn't known; write the `<style>` itself
javascript: `javascript` is of Shopify's themes, and isn't known; write the `<script>` itself
content_for: `content_for` is of Shopify's themes, and isn't known; `render` takes in a partial
doc: `doc` isn't known; write `{% comment %}text{% endcomment %}`
highlight: `highlight` is of Jekyll, and isn't known; write the `<pre>` and `<code>` yourself
link: `link` is of Jekyll, and isn't known; write the address itself
post_url: `post_url` is of Jekyll, and isn't known; write the address itself
seo: `seo` is of a plugin of Jekyll, and isn't known; write the `<meta>` tags yourself
feed_meta: `feed_meta` is of a plugin of Jekyll, and isn't known; write the `<link>` yourself
gist: `gist` is of a plugin of Jekyll, and isn't known; let the data bring the HTML
do: `do` isn't known; `assign` sets a name, as `{% assign list = list | concat: more %}`
then: a condition ends without `then`
next: `next` is written `continue`
fi: an end is written as `{% endif %}`
done: an end is written as `{% endfor %}`
range: a loop is written `{% for i in list %}`
elsunless: `elsunless` isn't known; write `{% elsif a == false %}`
yield: `yield` isn't known; `{{ content }}` shows what the data brings
slot: `slot` isn't known; `capture` keeps a text, and a partial can show it
ifequal: `ifequal a b` is written `{% if a == b %}`
ifnotequal: `ifnotequal a b` is written `{% if a != b %}`
ifdef: `ifdef` isn't known; `{% if a %}` asks whether `a` has a value
load: `load` isn't known; every filter and tag is there from the start
static: `static` isn't known; write the address itself
url: `url` isn't known; write the address itself
define: `define` isn't known; `{% render 'name' %}` takes in a partial
dump: `dump` isn't known; `{{ a }}` shows a value
debug: `debug` isn't known; `{{ a }}` shows a value
inspect: `inspect` isn't known; `{{ a }}` shows a value
csrf_token: `csrf_token` isn't known; let the data bring it
firstof: `firstof` isn't known; write `{{ a | default: b }}`
regroup: `regroup` isn't known; a `for` with an `if` picks the items of a group
apply: `apply` isn't known; `capture` the text, and show it with the filter
use: `use` isn't known; `{% render 'name' %}` takes in a partial
return: `return` isn't known; put the rest into an `{% if %}`
blocktrans: `blocktrans` isn't known; let the data bring the translated text
translate: `translate` isn't known; let the data bring the translated text
component: `component` isn't known; `{% render 'name' a: 1 %}` takes in a partial
template: `template` isn't known; `{% render 'name' %}` takes in a partial
trans: `trans` isn't known; let the data bring the translated text
now: `now` isn't known; let the data bring the date
";

/// The name of a filter, and the one that does here what it does elsewhere.
static FILTERS: &str = "\
length: size
count: size
upper: upcase
uppercase: upcase
lower: downcase
lowercase: downcase
title: capitalize
capfirst: capitalize
trim: strip
ltrim: lstrip
rtrim: rstrip
sub: minus
subtract: minus
mul: times
multiply: times
multiplied_by: times
div: divided_by
divide: divided_by
divide_by: divided_by
mod: modulo
e: escape
h: escape
html_escape: escape
escape_html: escape
nl2br: newline_to_br
newline_to_break: newline_to_br
striptags: strip_html
strip_tags: strip_html
urlencode: url_encode
urldecode: url_decode
strftime: date
date_format: date
format_date: date
datetime: date
unique: uniq
select: where
pluck: map
substring: slice
substr: slice
mid: slice
kebabcase: slugify
kebab_case: slugify
lcase: downcase
ucase: upcase
default_if_none: default
sort_by: sort
concatenate: append
ceiling: ceil
handleize: slugify
handle: slugify
parameterize: slugify
dasherize: slugify
urlize: slugify
squish: strip
to_upper: upcase
to_lower: downcase
touppercase: upcase
tolowercase: downcase
toUpperCase: upcase
toLowerCase: downcase
replace_all: replace
cut: remove
truncatechars: truncate
truncate_words: truncatewords
array_to_sentence: array_to_sentence_string
to_sentence: array_to_sentence_string
xml_escape: escape
htmlescape: escape
forceescape: escape
force_escape: escape
cgi_escape: url_encode
url_escape: url_encode
encodeURIComponent: url_encode
titleize: capitalize
titlecase: capitalize
ucfirst: capitalize
upcase_first: capitalize
removes: remove
split_by: split
l: date
localize: date
to_date: date
date_to_format: date
default_value: default
d: default
or: default
simple_format: newline_to_br
uri_escape: url_encode
linebreaksbr: newline_to_br
linebreaks: newline_to_br
contact: concat
merge: concat
remove_all: remove
";

/// The name of a filter that has no like here, and what the message says of it.
static LACKING: &str = "\
json: a `for` shows a list or a map piece by piece
to_json: a `for` shows a list or a map piece by piece
tojson: a `for` shows a list or a map piece by piece
jsonify: a `for` shows a list or a map piece by piece
money: it is of Shopify's themes; let the data bring the price as a text
money_with_currency: it is of Shopify's themes; let the data bring the price as a text
money_without_currency: it is of Shopify's themes; let the data bring the price as a text
money_without_trailing_zeros: it is of Shopify's themes; let the data bring the price as a text
t: it is of Shopify's themes; let the data bring the translated text
translate: it is of Shopify's themes; let the data bring the translated text
img_url: it is of Shopify's themes; write the address itself
image_url: it is of Shopify's themes; write the address itself
asset_img_url: it is of Shopify's themes; write the address itself
asset_url: it is of Shopify's themes; write the address itself
file_url: it is of Shopify's themes; write the address itself
image_tag: it is of Shopify's themes; write the `<img>` itself
img_tag: it is of Shopify's themes; write the `<img>` itself
script_tag: it is of Shopify's themes; write the `<script>` itself
stylesheet_tag: it is of Shopify's themes; write the `<link>` itself
link_to: it is of Shopify's themes; write the `<a>` itself
within: it is of Shopify's themes; write the address itself
color_to_rgb: it is of Shopify's themes
payment_type_svg_tag: it is of Shopify's themes
placeholder_svg_tag: it is of Shopify's themes
structured_data: it is of Shopify's themes; let the data bring the JSON
weight_with_unit: it is of Shopify's themes; write the unit after the number
camelize: it is of Shopify's themes
camelcase: it is of Shopify's themes
find: write `where: 'name', value | first`
find_index: a `for` with `forloop.index0` finds a place
has: write `where: 'name', value | size`
any: write `where: 'name', value | size`
every: a `for` with an `if` asks each item
reject: a `for` with `unless` leaves items out
filter: write `where: 'name', value`
remove_last: `remove_first` removes the first one, and `remove` all
replace_last: `replace_first` replaces the first one, and `replace` all
raw: it ends an output where outputs are escaped; elsewhere leave `| raw` out
safe: leave `| safe` out, or where outputs are escaped write `| raw`
safeHTML: leave `| safeHTML` out, or where outputs are escaped write `| raw`
safeURL: leave `| safeURL` out, or where outputs are escaped write `| raw`
safeJS: leave `| safeJS` out, or where outputs are escaped write `| raw`
safeCSS: leave `| safeCSS` out, or where outputs are escaped write `| raw`
html_safe: leave `| html_safe` out, or where outputs are escaped write `| raw`
unescape: nothing is escaped by itself; let the data bring the plain text
format: `append` and `prepend` join texts, and `date: '%d %b %Y'` shows a date
printf: `append` and `prepend` join texts
sprintf: `append` and `prepend` join texts
number_format: let the data bring the formatted number
toFixed: let the data bring the formatted number
number_with_delimiter: let the data bring the formatted number
humanize: let the data bring the text as it should be
timeago: let the data bring the text
trans: let the data bring the translated text
dump: a `for` shows a list or a map piece by piece
debug: a `for` shows a list or a map piece by piece
limit: write `slice: 0, 2`, or `limit` in a `for`
take: write `slice: 0, 2`, or `limit` in a `for`
offset: write `slice`, or `offset` in a `for`
skip: write `slice`, or `offset` in a `for`
avg: add in a `for`, and divide by `size`
average: add in a `for`, and divide by `size`
mean: add in a `for`, and divide by `size`
reverse_string: `split: ''`, `reverse` and `join` turn a text round
snake_case: let the data bring the text as it should be
snakecase: let the data bring the text as it should be
keys: a `for` over a map gives pairs, and `pair[0]` is the key
values: a `for` over a map gives pairs, and `pair[1]` is the value
items: a `for` over a map gives pairs, as `pair[0]` and `pair[1]`
dictsort: a `for` over a map gives its pairs in the order of their keys
batch: a `tablerow` with `cols` makes rows
in_groups_of: a `tablerow` with `cols` makes rows
random: chance isn't known; let the data bring the choice
sample: it is of Jekyll; chance isn't known, so let the data bring the choice
shuffle: chance isn't known; let the data bring the order
md5: let the data bring the digest
sha1: let the data bring the digest
sha256: let the data bring the digest
hmac_sha1: let the data bring the digest
hmac_sha256: let the data bring the digest
markdownify: it is of Jekyll; let the data bring the HTML
smartify: it is of Jekyll; let the data bring the text as it should be
relative_url: it is of Jekyll; write the address itself
absolute_url: it is of Jekyll; write the address itself
group_by: it is of Jekyll; a `for` with an `if` picks the items of a group
group_by_exp: it is of Jekyll; a `for` with an `if` picks the items of a group
where_exp: it is of Jekyll; write `where: 'name', value`, or an `if` in a `for`
find_exp: it is of Jekyll; write `where: 'name', value | first`
number_of_words: it is of Jekyll; write `split: ' ' | size`
normalize_whitespace: it is of Jekyll; write `strip`
to_integer: it is of Jekyll; a text of digits counts as a number, as in `plus: 0`
inspect: a `for` shows a list or a map piece by piece
date_to_xmlschema: write `date: '%FT%T%:z'`
date_to_rfc822: write `date: '%a, %d %b %Y %T %z'`
date_to_string: write `date: '%d %b %Y'`
date_to_long_string: write `date: '%d %B %Y'`
sum: add in a `for`, by `assign` and `plus`
base64_encode: let the data bring the encoded text
base64_decode: let the data bring the decoded text
to_s: an output shows any value as a text
string: an output shows any value as a text
to_i: a text of digits counts as a number, as in `plus: 0`
int: a text of digits counts as a number, as in `plus: 0`
number: a text of digits counts as a number, as in `plus: 0`
to_number: a text of digits counts as a number, as in `plus: 0`
to_int: a text of digits counts as a number, as in `plus: 0`
intval: a text of digits counts as a number, as in `plus: 0`
parseInt: a text of digits counts as a number, as in `plus: 0`
add: write `plus` for numbers, `append` for texts
max: `sort | last` is the greatest of a list, and `at_least: 1` a number that is 1 or more
min: `sort | first` is the least of a list, and `at_most: 9` a number that is 9 or less
percent: write `times: 100 | divided_by: total`
percentage: write `times: 100 | divided_by: total`
left: write `slice: 0, 2`
right: write `slice: -2, 2`
index: a place in a list is written `a[0]`
get: a place in a list is written `a[0]`, and a part of a map `a.b`
at: a place in a list is written `a[0]`
nth: a place in a list is written `a[0]`
time: write `date: '%H:%M'`
empty: compare with `''`, or `.size` with 0, in an `{% if %}`
is_empty: compare with `''`, or `.size` with 0, in an `{% if %}`
base64: let the data bring the encoded text
to_f: numbers are whole here; count in a smaller unit, as cents
float: numbers are whole here; count in a smaller unit, as cents
floatformat: numbers are whole here; let the data bring the text with its places
currency: let the data bring the price as a text
intcomma: let the data bring the formatted number
pluralize: write `{% if a == 1 %}item{% else %}items{% endif %}`
ordinalize: let the data bring the text as it should be
yesno: a choice is written `{% if a %}yes{% else %}no{% endif %}`
ternary: a choice is written `{% if a %}b{% else %}c{% endif %}`
wordcount: write `split: ' ' | size`
attr: a part is written `a.b`
groupby: a `for` with an `if` picks the items of a group
selectattr: write `where: 'name', value`
rejectattr: a `for` with `unless` leaves items out
contains: `contains` stands in a condition, as `{% if a contains b %}`
includes: `contains` stands in a condition, as `{% if a contains b %}`
in: `contains` stands in a condition, as `{% if a contains b %}`
push: `concat` joins two lists
add_to: `concat` joins two lists
unshift: `concat` joins two lists
pop: a `for` with `limit` leaves the last items out
shift: a `for` with `offset` leaves the first items out
flatten: a `for` in a `for` goes over lists in a list
range: a `for` goes over a range, as `{% for i in (1..5) %}`
chars: write `split: ''`
lines: `newline_to_br` and `split` part a text into lines
indent: let the data bring the text as it should be
wordwrap: let the data bring the text as it should be
wrap: let the data bring the text as it should be
center: let the data bring the text as it should be
ljust: let the data bring the text as it should be
rjust: let the data bring the text as it should be
pad: let the data bring the text as it should be
test: an `{% if %}` compares, and `contains` looks for a part of a text
match: an `{% if %}` compares, and `contains` looks for a part of a text
regex_replace: `replace` takes plain text, and no pattern
type: what a value is can't be asked
typeof: what a value is can't be asked
";

/// What the message says of a tag of another language.
pub(crate) fn meant_tag(name: &str) -> Option<&'static str> {
    words_in(TAGS, name)
}

/// The filter that is meant by a filter's name of another language.
pub(crate) fn meant_filter(name: &str) -> Option<&'static str> {
    words_in(FILTERS, name)
}

/// What the message says of a filter of another language that has no like here.
pub(crate) fn lacking_filter(name: &str) -> Option<&'static str> {
    words_in(LACKING, name)
}

/// What the message says of a filter whose name shows of what kind it is elsewhere.
pub(crate) fn kind_of_filter(name: &str) -> Option<&'static str> {
    if name.ends_with("_tag") {
        return Some("write the element itself, as `<img>`");
    }
    if name.ends_with("_url") || name.starts_with("url_for") {
        return Some("write the address itself");
    }
    if name.starts_with("color_") || name.starts_with("font_") {
        return Some("it is of Shopify's themes; write it into the style sheet");
    }
    if name.starts_with("date_") || name.starts_with("format_date") {
        return Some("write `date` with a pattern, as `date: '%d %b %Y'`");
    }
    None
}

/// What a table has for a name. Each of its lines is a name, and what the message says of it.
fn words_in(table: &'static str, name: &str) -> Option<&'static str> {
    for line in table.lines() {
        match line.split_once(": ") {
            Some((known, phrasing)) if known == name => return Some(phrasing),
            _ => {}
        }
    }
    None
}
