//! Habits in outputs.

/// In an output.
pub static OUTPUT: &str = "\
^¦#each¦`{{#each list}}` is written `{% for item in list %}`
^¦#unless¦`{{#unless a}}` is written `{% unless a %}`
^¦#with¦`{{#with a}}` isn't known; write `a.b` for a part of `a`
^¦#if¦`{{#if a}}` is written `{% if a %}`
^¦#¦`{{#a}}` is written `{% if a %}`, and over a list `{% for item in a %}`
^¦/*¦a comment is written `{% comment %}text{% endcomment %}`
^¦//¦a comment is written `{% comment %}text{% endcomment %}`
^¦/each¦`{{/each}}` is written `{% endfor %}`
^¦/unless¦`{{/unless}}` is written `{% endunless %}`
^¦/¦`{{/if}}` is written `{% endif %}`
^¦>¦`{{> name}}` is written `{% render 'name' %}`
^¦^¦`{{^a}}` is written `{% unless a %}`
^¦!--¦a comment is written `{% comment %}text{% endcomment %}`
^¦! ¦a comment is written `{% comment %}text{% endcomment %}`
^¦!¦`!` isn't known; `{% unless a %}` asks for the opposite, and a comment is a `{% comment %}`
^¦&¦write `{{ a }}`, or where outputs are escaped `{{ a | raw }}`
^¦=¦`{{= a }}` is written `{{ a }}`
^¦../¦`../` isn't known; a name of an outer body is seen everywhere
^¦@index¦`@index` is written `forloop.index0`
^¦@first¦`@first` is written `forloop.first`
^¦@last¦`@last` is written `forloop.last`
^¦@root¦`@root` isn't known; a name of an outer body is seen everywhere
^¦@key¦`@key` isn't known; a `for` over a map gives pairs, and `pair[0]` is the key
^¦~¦white space is stripped by `{{-` and `-}}`
^¦<¦a shortcode isn't known; write the HTML itself, or a partial, as `{% render 'name' %}`
^¦{{raw¦`{{{{raw}}}}` is written `{% raw %}`
^¦%¦a tag begins with `{%`, with one brace
:¦{{¦inside an output a name stands without `{{` and `}}`
,¦{{¦inside an output a name stands without `{{` and `}}`
¦{{¦the output before this `{{` has no `}}`
¦{%¦the output before this `{%` has no `}}`
^¦{¦an output has two braces on each side, as `{{ a }}`
¦% }}¦a text stands between quotes, as `'%'`
¦%}¦an output ends with `}}`, and not with `%}`
¦-%}¦an output ends with `-}}`, and not with `-%}`
¦}¦an output ends with `}}`
^¦:¦a name has no `:` before it
^¦- ¦a sign stands right before its number, as in `-5`
^¦-¦a name has no sign; write `a | times: -1`
range¦.¦`{{ range .list }}` is written `{% for item in list %}`
if¦.¦`{{ if .a }}` is written `{% if a %}`
with¦.¦`{{ with .a }}` isn't known; write `a.b` for a part of `a`
¦do¦a loop is written `{% for item in list %}`
¦=>¦`=>` isn't known; arguments have a `,` between them, as `'a', 'b'`
¦=¦an output sets no name; write `{% assign a = b %}`
¦then¦a choice is written `{% if a %}b{% else %}c{% endif %}`
¦; }}¦an output ends without `;`
¦;}}¦an output ends without `;`
:¦,¦a text stands between quotes, as `join: ','`
¦,¦an output shows one value; write `{{ a }}{{ b }}`
";

/// In an output, by the item that it begins with.
pub static BEGUN: &str = "\
partial¦.¦`{{ partial 'name' . }}` is written `{% render 'name' %}`
template¦.¦`{{ template 'name' . }}` is written `{% render 'name' %}`
if¦.¦`{{ if eq .a 1 }}` is written `{% if a == 1 %}`
";

/// In an output or after the `=` of an `assign`.
pub static VALUE: &str = "\
|¦>¦`|>` is written `|`
not¦¦`not` isn't known; `{% unless a %}` asks for the opposite
|¦|¦`||` isn't known; `| default: 'text'` stands in for a missing value
¦==¦a comparison stands in a condition, as `{% if a == b %}`
¦!=¦a comparison stands in a condition, as `{% if a != b %}`
¦<=¦a comparison stands in a condition, as `{% if a <= b %}`
¦>=¦a comparison stands in a condition, as `{% if a >= b %}`
¦<¦a comparison stands in a condition, as `{% if a < b %}`
¦>¦a comparison stands in a condition, as `{% if a > b %}`
¦and¦`and` stands in a condition, as `{% if a and b %}`
¦or¦`or` stands in a condition; `| default: 'text'` stands in for a missing value
¦contains¦`contains` stands in a condition, as `{% if a contains b %}`
¦in¦`in` stands in a condition, as `{% if list contains item %}`
¦if¦a choice is written `{% if a %}b{% else %}c{% endif %}`
";
